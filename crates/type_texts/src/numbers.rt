//! Numbers of variables, by the order of first places.
ghost use Rattle.std.specs.Prelude.{◌≡◌, IfOk, OnOk};
ghost use Rattle.type_texts.specs.TypeText.{noted, place_in};

use indexmap::IndexSet;
use std::alloc::AllocError;

/// The number of a variable, which goes last where it is new.
///
/// Errors: want of memory.
pub fn number_of(variables: &mut IndexSet<usize>, variable: usize) -> Result<usize, AllocError>
    ensures noted { OnOk result (variables.new.keys ≡ noted variables.old.keys variable) }
    ensures number { IfOk result (λ number. number ≡ place_in variables.new.keys variable) }
{
    if let Some(number) = variables.get_index_of(&variable) {
        return Ok(number);
    }
    let number = variables.len();
    variables.insert(variable)?;
    Ok(number)
}
