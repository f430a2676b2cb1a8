// The values that a plan writes.
ghost use Rattle.std.specs.Prelude.{◌≡◌, ℕ, IfOk};
ghost use Rattle.std.specs.Ordering.{nat_cmp};
ghost use Rattle.std.specs.BTreeMap.{get, IsOrdered};
ghost use Rattle.update_planner.specs.Values.{zeros_over, values_over, rewritten_value};

use event_words::Register;
use policy_compiler::{Image, RegPair};
use std::alloc::{AllocError, Global};
use std::collections::BTreeMap;

/// Puts 0 for each register that is written.
fn put_zeros(values: &mut BTreeMap<u32, u32>, writes: &[RegPair]) -> Result<(), AllocError>
    ensures { IfOk result (λ _. (q : ℕ) → get nat_cmp values.new q ≡ zeros_over writes.now
        (get nat_cmp values.old q) q) }
{
    for write in writes {
        values.insert(write.index, 0)?;
    }
    Ok(())
}

/// Puts the value of each register that is written.
fn put_values(values: &mut BTreeMap<u32, u32>, writes: &[RegPair]) -> Result<(), AllocError>
    ensures { IfOk result (λ _. (q : ℕ) → get nat_cmp values.new q ≡ values_over writes.now
        (get nat_cmp values.old q) q) }
{
    for write in writes {
        values.insert(write.index, write.value)?;
    }
    Ok(())
}

/// The value of each register that a plan writes, by its index.
pub fn rewritten_values(
    alloc: Global,
    old: &Image,
    new: &Image,
) -> Result<BTreeMap<u32, u32>, AllocError>
    ensures values { IfOk result (λ m. (q : ℕ) → get nat_cmp m q ≡ rewritten_value old.now.writes
        new.now.writes q) }
    ensures ordered { IfOk result (IsOrdered nat_cmp) }
{
    let mut values = BTreeMap::new(alloc);
    put_zeros(&mut values, &old.writes)?;
    put_values(&mut values, &new.writes)?;
    values.remove(&Register::Hwcfg0.index());
    Ok(values)
}
