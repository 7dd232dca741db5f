//! What the names of a question's text stand for, and how that is named canonically.
ghost use Rattle.std.specs.Prelude.{◌≡◌, ◌≤◌, length};
ghost use Rattle.question_text.specs.NamedValues.{count_named, count_of, credit_of, entry_of, flow_in, flow_or_all, flow_or_only, of_named, of_written, state_named, state_value_of, step_in, waste_of};

use crate::conditions::Of;
use crate::names::Count;
use ctrl_syntax::Name;
use ctrl_types::State;
use path_server::Setting;

/// The number of the state with this name.
#[tactic(auto, unfolding(crate::specs::NamedValues::state_named))]
fn state_named(states: &[State], word: &[u8]) -> Option<u32>
    requires { length states.now ≤ 8 }
    ensures { result ≡ state_named states.now word.now }
{
    for (number, state) in states.iter().enumerate() {
        if state.name.as_slice() == word {
            return Some(number as u32);
        }
    }
    None
}

#[tactic(auto, unfolding(crate::specs::NamedValues::count_named))]
fn count_named(word: &[u8]) -> Option<Count>
    ensures { result ≡ count_named word.now }
{
    if word == b"A".as_slice() {
        Some(Count::Arrived)
    } else if word == b"S".as_slice() {
        Some(Count::Served)
    } else if word == b"L".as_slice() {
        Some(Count::Lost)
    } else {
        None
    }
}

#[tactic(auto, unfolding(crate::specs::NamedValues::step_in))]
fn step_in(setting: &Setting, step: Option<u32>) -> Option<u32>
    ensures { result ≡ step_in setting.now step }
{
    match step {
        Some(step) => {
            if step <= setting.steps {
                Some(step)
            } else {
                None
            }
        }
        None => None,
    }
}

fn flow_in(setting: &Setting, flow: u32) -> Option<u32>
    ensures { result ≡ flow_in setting.now flow }
{
    if 1 <= flow && flow <= setting.flows {
        Some(flow)
    } else {
        None
    }
}

/// The flow that is written, or 0 for the sum over all flows.
#[tactic(auto, unfolding(crate::specs::NamedValues::flow_or_all))]
fn flow_or_all(setting: &Setting, flow: Option<u32>) -> Option<u32>
    ensures { result ≡ flow_or_all setting.now flow }
{
    match flow {
        Some(flow) => flow_in(setting, flow),
        None => Some(0),
    }
}

/// The flow that is written, or the only one.
#[tactic(auto, unfolding(crate::specs::NamedValues::flow_or_only))]
fn flow_or_only(setting: &Setting, flow: Option<u32>) -> Option<u32>
    ensures { result ≡ flow_or_only setting.now flow }
{
    match flow {
        Some(flow) => flow_in(setting, flow),
        None => { if setting.flows == 1 { Some(1) } else { None } }
    }
}

fn entry_of(count: Count, flow: u32, step: u32) -> Of
    ensures { result ≡ entry_of count flow step }
{
    match count {
        Count::Arrived => Of::A(flow, step),
        Count::Served => Of::S(flow, step),
        Count::Lost => Of::L(flow, step),
    }
}

/// The credit, which has neither flow nor step.
#[tactic(auto, unfolding(crate::specs::NamedValues::credit_of))]
fn credit_of(name: &Name) -> Option<Of>
    ensures { result ≡ credit_of name.now }
{
    if name.flow.is_none() && name.step.is_none() {
        Some(Of::Credit)
    } else {
        None
    }
}

/// The waste, which has no flow.
#[tactic(auto, unfolding(crate::specs::NamedValues::waste_of))]
fn waste_of(setting: &Setting, name: &Name) -> Option<Of>
    ensures { result ≡ waste_of setting.now name.now }
{
    if name.flow.is_some() {
        return None;
    }
    let step = step_in(setting, name.step)?;
    Some(Of::W(step))
}

#[tactic(auto, unfolding(crate::specs::NamedValues::count_of))]
fn count_of(setting: &Setting, count: Count, name: &Name) -> Option<Of>
    ensures { result ≡ count_of setting.now count name.now }
{
    let flow = flow_or_all(setting, name.flow)?;
    let step = step_in(setting, name.step)?;
    Some(entry_of(count, flow, step))
}

#[tactic(auto, unfolding(crate::specs::NamedValues::state_value_of))]
fn state_value_of(states: &[State], setting: &Setting, name: &Name) -> Option<Of>
    requires { length states.now ≤ 8 }
    ensures { result ≡ state_value_of states.now setting.now name.now }
{
    let state = state_named(states, name.text.as_slice())?;
    let flow = flow_or_only(setting, name.flow)?;
    let step = step_in(setting, name.step)?;
    Some(Of::X(state, flow, step))
}

/// What a name stands for; None where it is unknown.
#[tactic(auto, unfolding(crate::specs::NamedValues::of_named))]
fn of_named(states: &[State], setting: &Setting, name: &Name) -> Option<Of>
    requires { length states.now ≤ 8 }
    ensures { result ≡ of_named states.now setting.now name.now }
{
    let word = name.text.as_slice();
    if word == b"credit".as_slice() {
        return credit_of(name);
    }
    if word == b"W".as_slice() {
        return waste_of(setting, name);
    }
    match count_named(word) {
        Some(count) => count_of(setting, count, name),
        None => state_value_of(states, setting, name),
    }
}

/// What a term is a multiple of; None where its name is unknown.
#[tactic(auto, unfolding(crate::specs::NamedValues::of_written))]
pub(crate) fn of_written(states: &[State], setting: &Setting, name: &Option<Name>) -> Option<Of>
    requires { length states.now ≤ 8 }
    ensures { result ≡ of_written states.now setting.now name.now }
{
    match name {
        Some(name) => of_named(states, setting, name),
        None => Some(Of::One),
    }
}
