//! The pairs of one ancestor among pairs by ancestor.

ghost use Rattle.std.specs.Prelude.{◌≡◌, ◌≤◌, length, count_by, nat_lt, nat_le};
ghost use Rattle.std.specs.List.Sorted.{IsNonDecreasingBy};
ghost use Rattle.tb_stackjoin.specs.Pairs.{of_ancestor};

use tb_span::Pair;

/// Where the pairs of the ancestor at a place begin: how many pairs have an earlier one.
pub fn start_of(pairs: &[Pair], ancestor: u32) -> usize
    requires rises { IsNonDecreasingBy (λ p. p.a) pairs.now }
    ensures { result ≡ count_by (λ p. nat_lt p.a ancestor) pairs.now }
{
    pairs.partition_point(|pair| pair.a < ancestor)
}

/// Where they end: how many pairs have it or an earlier one.
pub fn end_of(pairs: &[Pair], ancestor: u32) -> usize
    requires rises { IsNonDecreasingBy (λ p. p.a) pairs.now }
    ensures { result ≡ count_by (λ p. nat_le p.a ancestor) pairs.now }
{
    pairs.partition_point(|pair| pair.a <= ancestor)
}

/// The pairs of the ancestor at a place.
pub fn pairs_of(pairs: &[Pair], ancestor: u32) -> &[Pair]
    requires rises { IsNonDecreasingBy (λ p. p.a) pairs.now }
    ensures { result.now ≡ of_ancestor ancestor pairs.now }
{
    &pairs[start_of(pairs, ancestor)..end_of(pairs, ancestor)]
}
