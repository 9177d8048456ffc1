//! The words that say how to search.

ghost use Rattle.std.specs.Prelude.{◌≡◌, ◌≤◌, pos, ◌≤ℤ◌, true, length, IfOk, IfSome};
ghost use Rattle.std.specs.Result.{result_err};
ghost use Rattle.hu_input.specs.Names.{texts_of};
ghost use Rattle.hu_mine.specs.Engine.{offers, offers_further};
ghost use Rattle.hu_run.specs.Job.{engine_of, offered_engine, further_engine, search_of};

use super::WordFault;
use super::numbers::{read_least, read_top};
use hu_kind::Task;
use hu_mine::Engine;

/// An engine, the least utility that is wanted, and how many patterns are, or all.
#[derive(Clone, Copy, Debug)]
pub(super) struct Search {
    pub(super) engine: Engine,
    pub(super) least: i128,
    pub(super) top: Option<u32>,
}

/// What words say from the second on, the engine being read, or their first fault.
pub(super) fn read_search(engine: Option<Engine>, words: &[String]) -> Result<Search, WordFault>
    requires enough { 4 ≤ length words.now }
    ensures fault { result_err result ≡ result_err (search_of engine (texts_of words.now)) }
    ensures value { IfOk result (λ search. search_of engine (texts_of words.now)
        ≡ Ok (record { engine = search.engine; least = search.least; top = search.top })) }
    ensures engine { IfOk result (λ search. engine ≡ Some search.engine) }
    ensures least { IfOk result (λ search. pos 1 ≤ℤ search.least) }
    ensures some { IfOk result (λ search. IfSome search.top (λ k. 1 ≤ k)) }
{
    let engine = engine.ok_or(WordFault::EngineNotOffered)?;
    let least = read_least(&words[2]).ok_or(WordFault::BadMinimum)?;
    let top = read_top(&words[3]).ok_or(WordFault::BadTop)?;
    Ok(Search { engine, least, top })
}

/// The engine that a word names.
fn named_engine(word: &str) -> Option<Engine>
    ensures { result ≡ engine_of word.now }
{
    match word {
        "plain" => Some(Engine::Plain),
        "lists" => Some(Engine::Lists),
        "project" => Some(Engine::Project),
        "kept" => Some(Engine::Kept),
        "chain" => Some(Engine::Chain),
        _ => None,
    }
}

/// The engine that a word names, where the task offers it.
pub(super) fn read_engine(task: Task, word: &str) -> Option<Engine>
    ensures value { result ≡ offered_engine task word.now }
    ensures offered { IfSome result (λ engine. offers task engine ≡ true) }
{
    named_engine(word).filter(|engine| engine.serves(task))
}

/// The engine that a word names, where the further tasks offer it.
pub(super) fn read_further_engine(word: &str) -> Option<Engine>
    ensures value { result ≡ further_engine word.now }
    ensures offered { IfSome result (λ engine. offers_further engine ≡ true) }
{
    named_engine(word).filter(|engine| engine.serves_further())
}
