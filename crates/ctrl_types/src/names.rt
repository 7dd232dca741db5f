//! What names stand for.
ghost use Rattle.std.specs.Prelude.{◌≡◌};
ghost use Rattle.ctrl_types.specs.Names.{line_words, condition_words, known_words, is_among, is_reserved, state_named, signal_named, source_named, source_of};
ghost use Rattle.ctrl_types.specs.Scopes.{IsScope};

use crate::expressions::Source;
use ctrl_syntax::{Name, StateLine};
use indexmap::IndexSet;

/// The states of a text and their names, which are numbered in its order.
#[derive(Drop)]
pub(crate) struct Scope<'a> {
    pub(crate) states: &'a [StateLine],
    pub(crate) names: IndexSet<&'a [u8]>,
}

#[tactic(auto, unfolding(crate::specs::Names::is_among))]
fn is_line_word(word: &[u8]) -> bool
    ensures { result ≡ is_among line_words word.now }
{
    word == b"state".as_slice()
        || word == b"rule".as_slice()
        || word == b"when".as_slice()
        || word == b"otherwise".as_slice()
        || word == b"set".as_slice()
        || word == b"window".as_slice()
        || word == b"rate".as_slice()
        || word == b"end".as_slice()
        || word == b"init".as_slice()
        || word == b"data".as_slice()
        || word == b"count".as_slice()
}

#[tactic(auto, unfolding(crate::specs::Names::is_among))]
fn is_condition_word(word: &[u8]) -> bool
    ensures { result ≡ is_among condition_words word.now }
{
    word == b"and".as_slice()
        || word == b"or".as_slice()
        || word == b"not".as_slice()
        || word == b"true".as_slice()
        || word == b"false".as_slice()
        || word == b"delay".as_slice()
}

#[tactic(auto, unfolding(crate::specs::Names::is_among))]
fn is_known_word(word: &[u8]) -> bool
    ensures { result ≡ is_among known_words word.now }
{
    word == b"acked".as_slice()
        || word == b"lost".as_slice()
        || word == b"credit".as_slice()
        || word == b"A".as_slice()
        || word == b"S".as_slice()
        || word == b"L".as_slice()
        || word == b"W".as_slice()
}

/// Whether no state may have this name.
#[tactic(auto, unfolding(crate::specs::Names::is_reserved))]
pub(crate) fn is_reserved(word: &[u8]) -> bool
    ensures { result ≡ is_reserved word.now }
{
    is_line_word(word) || is_condition_word(word) || is_known_word(word)
}

/// The number of the state with this name.
pub(crate) fn state_named(scope: &Scope<'_>, word: &[u8]) -> Option<u32>
    requires { IsScope scope.now }
    ensures { result ≡ state_named scope.now.states.now word.now }
{
    match scope.names.get_index_of(&word) {
        Some(number) => Some(number as u32),
        None => None,
    }
}

#[tactic(auto, unfolding(crate::specs::Names::signal_named))]
fn signal_named(word: &[u8]) -> Option<Source>
    ensures { result ≡ signal_named word.now }
{
    if word == b"acked".as_slice() {
        Some(Source::Acked)
    } else if word == b"lost".as_slice() {
        Some(Source::Lost)
    } else {
        None
    }
}

/// The state with this name; where signals are known, `acked` and `lost` too.
#[tactic(auto, unfolding(crate::specs::Names::source_named))]
fn source_named(scope: &Scope<'_>, signals: bool, word: &[u8]) -> Option<Source>
    requires { IsScope scope.now }
    ensures { result ≡ source_named scope.now.states.now signals word.now }
{
    match state_named(scope, word) {
        Some(number) => Some(Source::State(number)),
        None => { if signals { signal_named(word) } else { None } }
    }
}

/// What a term is a multiple of; None where its name is unknown.
#[tactic(auto, unfolding(crate::specs::Names::source_of))]
pub(crate) fn source_of(scope: &Scope<'_>, signals: bool, name: &Option<Name>) -> Option<Source>
    requires { IsScope scope.now }
    ensures { result ≡ source_of scope.now.states.now signals name.now }
{
    match name {
        Some(name) => source_named(scope, signals, name.text.as_slice()),
        None => Some(Source::One),
    }
}
