use crate::conditions::QCond;
use path_server::Setting;
use sqlite_items::Items;

/// A question: whether some run that meets the assumptions breaks the requirement.
#[derive(Debug, Drop)]
pub struct Question {
    pub setting: Setting,
    /// At most 16.
    pub assumes: Items<QCond>,
    pub require: QCond,
}
