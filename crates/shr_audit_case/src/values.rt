// SPDX-License-Identifier: GPL-2.0-only
//! The values of objects that Looks found.

ghost use Rattle.std.specs.Prelude.{◌≡◌, ◌++◌, OnOk};
ghost use Rattle.shr_audit_case.specs.Values.{values_noted};

use shr_base::memory::Memory;
use shr_base::text::Text;

/// The value of the object that a Look found, with the number of the entry, counted from 0 in its
/// journal.
#[derive(Drop)]
pub struct FoundValue {
    pub entry: usize,
    pub value: Text,
}

/// Notes the value that an entry met, if it met one.
pub(crate) fn note_value(
    values: &mut Vec<FoundValue>,
    entry: usize,
    value: Option<Text>,
) -> Result<(), Memory>
    ensures { OnOk result (values.new.items ≡ values.old.items ++ values_noted entry value) }
{
    if let Some(value) = value {
        values.push(FoundValue { entry, value })?;
    }
    Ok(())
}
