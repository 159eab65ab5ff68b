//! Lists that grow by an item.

ghost use Rattle.std.specs.Prelude.{◌≡◌, ◌++◌, ◌∷◌, [], OnOk, IfErr};

use ga_lab::LabFault;

/// Puts an item at the end of a list.
///
/// # Errors
/// `Memory` alone.
#[inline]
pub(crate) fn add<T: Drop>(list: &mut Vec<T>, item: T) -> Result<(), LabFault>
    ensures ok { OnOk result (list.new.items ≡ list.old.items ++ item ∷ []) }
    ensures err { IfErr result (λ why. why ≡ LabFault.Memory) }
{
    match list.push(item) {
        Ok(()) => Ok(()),
        Err(_) => Err(LabFault::Memory),
    }
}
