//! Numbers as words.

ghost use Rattle.std.specs.Prelude.{◌≡◌, ◌≤◌, pos, ◌≤ℤ◌, IfSome};
ghost use Rattle.hu_run.specs.Job.{least_of, top_of, length_of, seed_of, IsSeed};

use hu_kind::read_number;

/// The least utility that a word says.
pub(crate) fn read_least(word: &str) -> Option<i128>
    ensures value { result ≡ least_of word.now }
    ensures least { IfSome result (λ n. pos 1 ≤ℤ n) }
{
    read_number(word.as_bytes()).ok().filter(|n| *n >= 1)
}

/// How many entries a word asks for.
pub(crate) fn read_top(word: &str) -> Option<Option<u32>>
    ensures value { result ≡ top_of word.now }
    ensures some { IfSome result (λ top. IfSome top (λ k. 1 ≤ k)) }
    ensures few { IfSome result (λ top. IfSome top (λ k. k ≤ 1000000)) }
{
    if word == "all" {
        return Some(None);
    }
    match read_number(word.as_bytes()) {
        Ok(n) if 1 <= n && n <= 1_000_000 => Some(Some(n as u32)),
        _ => None,
    }
}

/// The length that a word says.
pub(super) fn read_length(word: &str) -> Option<u32>
    ensures value { result ≡ length_of word.now }
    ensures range { IfSome result (λ n. (1 ≤ n) × (n ≤ 4096)) }
{
    match read_number(word.as_bytes()) {
        Ok(n) if 1 <= n && n <= 4096 => Some(n as u32),
        _ => None,
    }
}

/// The seed that a word says.
pub(super) fn read_seed(word: &str) -> Option<u32>
    ensures value { result ≡ seed_of word.now }
    ensures range { IfSome result IsSeed }
{
    match read_number(word.as_bytes()) {
        Ok(n) if 1 <= n && n <= 2_147_483_646 => Some(n as u32),
        _ => None,
    }
}
