//! The order by average.

ghost use Rattle.std.specs.Prelude.{◌≡◌, ◌≤◌, ◌<◌, ◌≤ℤ◌, ◌*ℤ◌, ◌*◌, int_le, length, pos, ◌^◌};
ghost use Rattle.std.specs.Ordering.{nat_cmp};
ghost use Rattle.hu_average.specs.Order.{average_of, fraction_cmp, average_cmp};

use hu_kind::Entry;
use std::cmp::Ordering;

/// Whether a utility is at least `least` for each of `count` items. It divides, so nothing leaves 128 bits.
pub fn reaches(utility: i128, count: u32, least: i128) -> bool
    requires some { 1 ≤ count }
    requires least { pos 1 ≤ℤ least }
    ensures { result ≡ int_le (least *ℤ pos count) utility }
{
    let average = Average {
        utility,
        count: u64::from(count),
    };
    average.reaches(least)
}

/// The order by average: the greater average first, as exact fractions, then the smaller key, then the smaller support. Nothing
/// leaves 128 bits. After Hong, Lee and Wang (2009).
#[tactic(auto, unfolding(crate::specs::Order::average_cmp))]
pub fn cmp_average(a: &Entry, b: &Entry) -> Ordering
    requires earns_a { pos 1 ≤ℤ a.now.utility }
    requires earns_b { pos 1 ≤ℤ b.now.utility }
    requires some_a { 0 < length a.now.key }
    requires some_b { 0 < length b.now.key }
    ensures { result ≡ average_cmp a.now b.now }
{
    cmp_averages(b, a)
        .then_with(|| a.key.numbers().cmp(b.key.numbers()))
        .then_with(|| a.support.cmp(&b.support))
}

/// Compares the averages of entries, the less one first.
fn cmp_averages(a: &Entry, b: &Entry) -> Ordering
    requires earns_a { pos 1 ≤ℤ a.now.utility }
    requires earns_b { pos 1 ≤ℤ b.now.utility }
    requires some_a { 0 < length a.now.key }
    requires some_b { 0 < length b.now.key }
    ensures { result ≡ fraction_cmp (average_of a.now) (average_of b.now) }
{
    Average::of(a).compare(Average::of(b))
}

/// A utility and how many items earn it.
#[derive(Clone, Copy)]
pub(crate) struct Average {
    pub utility: i128,
    pub count: u64,
}

impl Average {
    /// The average of an entry.
    pub(crate) fn of(entry: &Entry) -> Average
        ensures utility { result.utility ≡ entry.now.utility }
        ensures count { result.count ≡ length entry.now.key }
    {
        Average {
            utility: entry.utility,
            count: entry.key.numbers().len() as u64,
        }
    }

    /// A number for each item.
    pub(crate) fn whole(number: i128) -> Average
        ensures utility { result.utility ≡ number }
        ensures count { result.count ≡ 1 }
    {
        Average {
            utility: number,
            count: 1,
        }
    }

    /// Whether it is at least a number.
    pub(crate) fn reaches(self, least: i128) -> bool
        requires some { 0 < self.count }
        requires least { pos 1 ≤ℤ least }
        ensures { result ≡ int_le (least *ℤ pos self.count) self.utility }
    {
        self.utility / i128::from(self.count) >= least
    }

    /// Compares averages as fractions, the less one first.
    pub(crate) fn compare(self, other: Average) -> Ordering
        requires earns { pos 1 ≤ℤ self.utility }
        requires other_earns { pos 1 ≤ℤ other.utility }
        requires some { 0 < self.count }
        requires other_some { 0 < other.count }
        ensures { result ≡ fraction_cmp (self.utility, self.count) (other.utility, other.count) }
    {
        cmp_fractions(
            self.utility as u128,
            u128::from(self.count),
            other.utility as u128,
            u128::from(other.count),
        )
    }
}

/// Compares `u / n` with `v / m`: their quotients first, and then the products of their remainders with the other's divisor.
fn cmp_fractions(u: u128, n: u128, v: u128, m: u128) -> Ordering
    requires some_n { 0 < n }
    requires some_m { 0 < m }
    requires few_n { n < 2 ^ 64 }
    requires few_m { m < 2 ^ 64 }
    ensures { result ≡ nat_cmp (u * m) (v * n) }
{
    (u / n)
        .cmp(&(v / m))
        .then_with(|| (u % n * m).cmp(&(v % m * n)))
}
