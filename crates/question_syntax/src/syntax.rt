use ctrl_syntax::Cond;
use path_server::Setting;
use sqlite_items::Items;

/// `assume COND` or `require COND`
#[derive(Debug, Drop)]
pub struct ConditionLine {
    pub cond: Cond,
    /// The number of the line, from 1.
    pub line: u32,
}

/// A question's text as it is written, with its setting.
#[derive(Debug, Drop)]
pub struct QuestionSyntax {
    /// The numbers of rate and buffer are kept as they are written.
    pub setting: Setting,
    /// The number of the line `rate`.
    pub rate_line: u32,
    /// The number of the line `buffer`.
    pub buffer_line: u32,
    /// 16 at most.
    pub assumes: Items<ConditionLine>,
    pub require: ConditionLine,
}

/// The lines in front of the conditions.
#[derive(Debug)]
pub(crate) struct SettingLines {
    pub(crate) setting: Setting,
    pub(crate) rate_line: u32,
    pub(crate) buffer_line: u32,
}
