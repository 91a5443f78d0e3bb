// The parts of a record, in its order.
ghost use Rattle.std.specs.Prelude.{◌≡◌, ◌<◌, ◌^◌, List, [], ◌∷◌, ◌++◌, map, if◌then◌else◌, None, OnOk};
ghost use Rattle.wg_params.specs.Codes.{IsCode};
ghost use Rattle.wg_graph.specs.Ascending.{Ascends, Below};
ghost use Rattle.wg_intervals.specs.Canonical.{ends_and_lengths};
ghost use Rattle.wg_intervals.specs.declared.run.Run.{Run};
ghost use Rattle.wg_grammar.specs.declared.fault.Field.TheVariants as field;
ghost use Rattle.wg_greedy.specs.Fields.{written, stored_blocks, block_fields, interval_fields, residual_fields, extras};
ghost use Rattle.wg_encoder.specs.InMemory.{AreLowRuns};

use crate::blocks::stored_block;
use crate::gap::stored_gap;
use crate::held::HeldRecord;
use std::alloc::AllocError;
use wg_grammar::Field;
use wg_graph::{List as Numbers, Members};
use wg_params::{Code, Params};

// Adds a number if it is not known.
#[inline(always)]
fn add_unless(others: &mut Numbers, known: bool, number: u64) -> Result<(), AllocError>
    ensures { OnOk result (others.new ≡ others.old ++ (if known then [] else number ∷ [])) }
{
    if known {
        return Ok(());
    }
    others.push(number)
}

/// The successors that a referenced list does not have, in place of the numbers that are there.
pub(crate) fn fill_extras(
    others: &mut Numbers,
    list: &[u64],
    referenced: &[u64],
) -> Result<(), AllocError>
    requires list { Ascends 0 list.now }
    requires referenced { Ascends 0 referenced.now }
    ensures { OnOk result (others.new ≡ extras list.now referenced.now) }
{
    others.clear();
    let mut members = Members::of(referenced);
    for y in list {
        add_unless(others, members.has(*y), *y)?;
    }
    Ok(())
}

/// The block count, and the blocks.
pub(crate) fn add_blocks(
    fields: &mut HeldRecord,
    params: &Params,
    blocks: &[u64],
) -> Result<(), AllocError>
    ensures { OnOk result (fields.new ≡ fields.old ++ block_fields params.now blocks.now) }
{
    fields.add(
        Field::BlockCount,
        params.block_counts(),
        blocks.len() as u64,
    )?;
    add_lengths(fields, params.blocks(), blocks)
}

fn add_lengths(fields: &mut HeldRecord, code: Code, blocks: &[u64]) -> Result<(), AllocError>
    requires { IsCode code }
    ensures { OnOk result (fields.new ≡ fields.old ++ map (written field.Block code) (stored_blocks blocks.now)) }
{
    let mut count = 0;
    for block in blocks {
        fields.add(Field::Block, code, stored_block(count, *block))?;
        count += 1;
    }
    Ok(())
}

/// The left ends and lengths of the intervals, if these come one after the other in `ends`.
pub(crate) fn add_intervals(
    fields: &mut HeldRecord,
    page: u64,
    least: u64,
    ends: &[u64],
) -> Result<(), AllocError>
    requires page { page < 2 ^ 62 }
    requires low { AreLowRuns ends.now }
    ensures { (runs : List Run) → ends.now ≡ ends_and_lengths runs
        → OnOk result (fields.new ≡ fields.old ++ interval_fields page least None runs) }
{
    let mut past = None;
    for index in 0..ends.len() / 2 {
        let left = ends[2 * index];
        let length = ends[2 * index + 1];
        fields.add(Field::Left, Code::Gamma, stored_gap(page, past, left))?;
        fields.add(Field::Length, Code::Gamma, length.saturating_sub(least))?;
        past = Some(left + length);
    }
    Ok(())
}

/// The residuals.
pub(crate) fn add_residuals(
    fields: &mut HeldRecord,
    page: u64,
    code: Code,
    residuals: &[u64],
) -> Result<(), AllocError>
    requires page { page < 2 ^ 62 }
    requires code { IsCode code }
    requires low { Below (2 ^ 62) residuals.now }
    ensures { OnOk result (fields.new ≡ fields.old ++ residual_fields code page None residuals.now) }
{
    let mut last = None;
    for y in residuals {
        fields.add(Field::Residual, code, stored_gap(page, last, *y))?;
        last = Some(*y);
    }
    Ok(())
}
