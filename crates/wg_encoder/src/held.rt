// A record in memory, before it is written.
ghost use Rattle.std.specs.Prelude.{◌≡◌, ◌<◌, true, false, [], ◌∷◌, ◌++◌, OnOk, is_err};
ghost use Rattle.wg_params.specs.Codes.{IsCode};
ghost use Rattle.wg_bits.specs.Written.{Sends};
ghost use Rattle.wg_greedy.specs.Fields.{written, bits_of_fields, all_have_words};

use std::alloc::{AllocError, Global};
use std::marker::Model;
use wg_bits::Writer;
use wg_codes::write;
use wg_grammar::Field;
use wg_outside::{Depot, WriteError};
use wg_params::Code;

/// A field with its code and its stored value.
#[derive(Clone, Copy, Debug)]
pub(crate) struct HeldField {
    pub field: Field,
    pub code: Code,
    pub value: u64,
}

/// The fields of a record, in their order: 24 bytes each.
#[derive(Debug, Drop)]
pub(crate) struct HeldRecord {
    fields: Vec<HeldField>,
}

impl Model for HeldRecord {
    ghost use Rattle.std.specs.Prelude.{List, All, map};
    ghost use Rattle.wg_params.specs.Codes.{IsCode};
    ghost use Rattle.wg_greedy.specs.Fields.{Written};
    ghost use Rattle.wg_encoder.specs.InMemory.{as_written};

    ghost Value = { List Written };

    ghost view = { λ r. map as_written r.fields.items };

    ghost invariant = { λ r. All (λ f. IsCode f.code) r.fields.items };
}

impl HeldRecord {
    pub(crate) fn new(alloc: Global) -> HeldRecord
        ensures { result ≡ [] }
    {
        HeldRecord {
            fields: Vec::new(alloc),
        }
    }

    // Drops all fields, and keeps the memory for others.
    #[inline(always)]
    pub(crate) fn clear(&mut self)
        ensures { self.new ≡ [] }
    {
        self.fields.clear();
    }

    #[inline(always)]
    pub(crate) fn add(&mut self, field: Field, code: Code, value: u64) -> Result<(), AllocError>
        requires { IsCode code }
        ensures { OnOk result (self.new ≡ self.old ++ written field code value ∷ []) }
    {
        self.fields.push(HeldField { field, code, value })?;
        Ok(())
    }

    /// Puts the words of the fields, one after the other. After an error the writer has failed, and the file's bits are
    /// a prefix of what it would have got.
    #[inline(always)]
    pub(crate) fn write<D: Depot>(
        &self,
        writer: &mut Writer,
        depot: &mut D,
        name: &str,
    ) -> Result<(), WriteError>
        requires words { all_have_words self.now ≡ true }
        requires ready { writer.old.failed ≡ false }
        ensures sends { Sends ⟦<D as Depot>⟧ depot.old depot.new name.now writer.old.bits (bits_of_fields self.now)
            writer.new.bits result }
        ensures failed { writer.new.failed ≡ is_err result }
    {
        for field in self.fields.as_slice() {
            match write(field.code, field.value, writer, depot, name) {
                Ok(()) => {}
                Err(e) => return Err(e),
            }
        }
        Ok(())
    }
}
