//! A list in two parts.

ghost use Rattle.std.specs.Prelude.{◌≡◌, take, drop};

/// The first `count` of a list, or all where it has fewer, and the rest.
#[tactic(auto, using(crate::proofs::Adding::fronts))]
pub fn divided<T>(list: &[T], count: usize) -> (&[T], &[T])
    ensures front { result.0.now ≡ take count list.now }
    ensures rest { result.1.now ≡ drop count list.now }
{
    if count <= list.len() {
        list.split_at(count)
    } else {
        (list, &[])
    }
}
