// Sets of gauges as masks: gauge k, of the 64 gauges 0..63, is in the set `m` if bit k of `m` is 1.
// Union, intersection and difference are the operators `|`, `&` and `& !`, and the empty set is 0;
// `proofs/Laws.antt` has what those do to the members.
#![tactic(auto)]

pub mod members;

ghost use Rattle.std.specs.Prelude.{◌≡◌};
ghost use Rattle.std.specs.Int.Count.{ones};
ghost use Rattle.gauges.specs.Flags.{Tells};
ghost use Rattle.gauges.specs.Sets.{Member, Only, Lowest, Below};

// Whether gauge k is in m. No gauge from 64 on is.
pub fn has(m: u64, k: u32) -> bool
    ensures { Tells result (Member k m) }
{
    if k < 64 { (m >> k) % 2 == 1 } else { false }
}

// The set of gauge k alone, which is empty for k of 64 or more.
pub fn only(k: u32) -> u64
    ensures { Only k result }
{
    if k < 64 { 1 << k } else { 0 }
}

// How many gauges are in m.
pub fn size(m: u64) -> u32
    ensures { result ≡ ones m }
{
    u64::count_ones(m)
}

// The lowest gauge of m, or 64 if m is empty.
pub fn lowest(m: u64) -> u32
    ensures { Lowest m result }
{
    u64::trailing_zeros(m)
}

// The gauges below n, which are all 64 for n of 64 or more.
pub fn below(n: u32) -> u64
    ensures { Below n result }
{
    if n < 64 { (1 << n) - 1 } else { !0 }
}
