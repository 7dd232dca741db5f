// What is drawn: the quantities of a run, and the panels' titles.

/// What a line shows, row by row. Flows are numbered from 1, states from 0.
#[derive(Clone, Copy, Debug, PartialEq, Eq)]
pub enum Quantity {
    Sent { flow: u32 },
    /// What was sent and not lost.
    Accepted { flow: u32 },
    Served { flow: u32 },
    Lost { flow: u32 },
    /// What was accepted and not yet served.
    Waiting { flow: u32 },
    State { flow: u32, state: u32 },
    /// The most that the path may have served.
    Most,
    /// The least that the path has to have served.
    Least,
    AllAccepted,
    AllServed,
    /// What was accepted beyond what the rate could have served.
    Backlog,
    Buffer,
}

/// An entry that each flow has.
#[derive(Clone, Copy, Debug, PartialEq, Eq)]
pub(crate) enum Entry {
    Arrived,
    Served,
    Lost,
}

/// What a panel is about.
#[derive(Clone, Copy, Debug, PartialEq, Eq)]
pub enum Title {
    OfPath,
    OfFlow(u32),
    OfQueue,
    OfState(u32),
}
