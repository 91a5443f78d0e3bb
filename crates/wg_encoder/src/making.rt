// A whole record, made from the two lists.
ghost use Rattle.std.specs.Prelude.{◌≡◌, ◌<◌, ◌^◌, ◌++◌, length, OnOk};
ghost use Rattle.wg_graph.specs.Ascending.{Ascends, Below};
ghost use Rattle.wg_greedy.specs.Fields.{count_fields, extra_fields, reference_fields, copy_fields, list_fields, record_fields};

use crate::held::HeldRecord;
use crate::parts::{add_blocks, add_intervals, add_residuals, fill_extras};
use std::alloc::{AllocError, Global};
use std::marker::Model;
use wg_blocks::Blocks;
use wg_grammar::Field;
use wg_graph::List as Numbers;
use wg_intervals::Split;
use wg_params::{Code, Params};

/// A record that is made, and the lists that it is made of. The next record is made in the same memory.
#[derive(Debug, Drop)]
pub(crate) struct Draft {
    record: HeldRecord,
    blocks: Blocks,
    // what is not copied, and its parts
    others: Numbers,
    parts: Split,
}

impl Model for Draft {
    ghost use Rattle.std.specs.Prelude.{List};
    ghost use Rattle.wg_greedy.specs.Fields.{Written};

    ghost Value = { List Written };

    ghost view = { λ d. d.record };
}

fn add_reference(fields: &mut HeldRecord, params: &Params, reference: u64) -> Result<(), AllocError>
    ensures { OnOk result (fields.new ≡ fields.old ++ reference_fields params.now reference) }
{
    if params.window() > 0 {
        return fields.add(Field::Reference, params.references(), reference);
    }
    Ok(())
}

fn add_copies(
    fields: &mut HeldRecord,
    blocks: &mut Blocks,
    params: &Params,
    reference: u64,
    referenced: &[u64],
    list: &[u64],
) -> Result<(), AllocError>
    requires list { Ascends 0 list.now }
    requires referenced { Ascends 0 referenced.now }
    ensures { OnOk result (fields.new ≡ fields.old ++ copy_fields params.now reference referenced.now list.now) }
{
    if reference > 0 {
        blocks.fill(list, referenced)?;
        return add_blocks(fields, params, blocks.as_slice());
    }
    Ok(())
}

// The interval count is there if something is not copied and the archive has intervals.
fn add_count(fields: &mut HeldRecord, found: bool, least: u64, count: u64) -> Result<(), AllocError>
    ensures { OnOk result (fields.new ≡ fields.old ++ count_fields found least count) }
{
    if found && least > 0 {
        return fields.add(Field::IntervalCount, Code::Gamma, count);
    }
    Ok(())
}

// What is not copied: how many intervals there are, each of them, and the residuals.
fn add_extras(
    fields: &mut HeldRecord,
    parts: &mut Split,
    params: &Params,
    page: u64,
    others: &[u64],
) -> Result<(), AllocError>
    requires page { page < 2 ^ 62 }
    requires others { Ascends 0 others.now }
    requires low { Below (2 ^ 62) others.now }
    ensures { OnOk result (fields.new ≡ fields.old ++ extra_fields params.now page others.now) }
{
    let least = params.interval();
    parts.fill(others, least)?;
    let ends = parts.intervals.as_slice();
    add_count(fields, !others.is_empty(), least, ends.len() as u64 / 2)?;
    add_intervals(fields, page, least, ends)?;
    add_residuals(fields, page, params.residuals(), parts.residuals.as_slice())
}

impl Draft {
    // No record, and no memory yet.
    pub(crate) fn new(alloc: Global) -> Draft {
        Draft {
            record: HeldRecord::new(alloc),
            blocks: Blocks::new(alloc),
            others: Numbers::new(alloc),
            parts: Split::new(alloc),
        }
    }

    fn add_list(
        &mut self,
        params: &Params,
        page: u64,
        reference: u64,
        referenced: &[u64],
        list: &[u64],
    ) -> Result<(), AllocError>
        requires page { page < 2 ^ 62 }
        requires list { Ascends 0 list.now }
        requires low { Below (2 ^ 62) list.now }
        requires referenced { Ascends 0 referenced.now }
        requires some { 0 < length list.now }
        ensures { OnOk result (self.new ≡ self.old ++ list_fields params.now page reference referenced.now list.now) }
    {
        add_reference(&mut self.record, params, reference)?;
        add_copies(
            &mut self.record,
            &mut self.blocks,
            params,
            reference,
            referenced,
            list,
        )?;
        fill_extras(&mut self.others, list, referenced)?;
        add_extras(
            &mut self.record,
            &mut self.parts,
            params,
            page,
            self.others.as_slice(),
        )
    }

    /// Makes the canonical record of a page by a reference, where `referenced` is the list that this names, empty for
    /// 0, in place of the record before. It takes two passes over the two lists. After an error it is of no use.
    pub(crate) fn fill(
        &mut self,
        params: &Params,
        page: u64,
        reference: u64,
        referenced: &[u64],
        list: &[u64],
    ) -> Result<(), AllocError>
        requires page { page < 2 ^ 62 }
        requires list { Ascends 0 list.now }
        requires low { Below (2 ^ 62) list.now }
        requires referenced { Ascends 0 referenced.now }
        ensures { OnOk result (self.new ≡ record_fields params.now page reference referenced.now list.now) }
    {
        self.record.clear();
        self.record
            .add(Field::Outdegree, params.outdegrees(), list.len() as u64)?;
        if list.is_empty() {
            return Ok(());
        }
        self.add_list(params, page, reference, referenced, list)
    }

    pub(crate) fn record(&self) -> &HeldRecord
        ensures { result.now ≡ self.now }
    {
        &self.record
    }
}
