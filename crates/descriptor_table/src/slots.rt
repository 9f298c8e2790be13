ghost use Rattle.std.specs.Prelude.{◌≡◌, ◌<◌, ◌≤◌, ◌-◌, length, slice_index_or, IfSome, None};
ghost use Rattle.descriptor_table.specs.Table.{lowest_from};

// The least place from one on where there is nothing.
#[tactic(auto, using(crate::proofs::SlotLemmas::lowest))]
pub fn lowest_from<T>(slots: &[Option<T>], from: usize) -> Option<usize>
    ensures lowest { result ≡ lowest_from slots.now (length slots.now - from) from }
    ensures inside { IfSome result (λ n. n < length slots.now) }
    ensures above { IfSome result (λ n. from ≤ n) }
    ensures free { IfSome result (λ n. slice_index_or slots.now n None ≡ None) }
{
    for i in from..slots.len() {
        if slots[i].is_none() {
            return Some(i);
        }
    }
    None
}
