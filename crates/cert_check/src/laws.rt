// What a certificate that proves means, as calls that do nothing.
ghost use Rattle.cert_check.specs.NoModel.{ProvedHaveNoModel};
ghost use Rattle.cert_check.specs.Examples.{Examples};
ghost use Rattle.cert_check.specs.Verdicts.{EachHasAVerdict};

/// Clauses for which a certificate proves have no model: whatever the denominator, no values of the columns and no
/// truths of the atoms make each row atom true exactly where its row holds, and each clause true.
///
/// Each leaf is a contradiction of linear rows, by Farkas' lemma in the direction that is easy, or a clause that is false
/// along its path. So each lemma follows from the clauses before it, and the last lemma is the empty clause.
pub fn proved_have_no_model()
    ensures { ProvedHaveNoModel }
{}

/// A certificate is proved exactly where it proves and no running sum overflows 128 bits; it fails, or is too wide, exactly
/// at the first place at which a cause is found or a sum overflows. The places are taken in the order of the lemmas, and in a
/// lemma its clause comes first and then its nodes in prefix order.
pub fn each_has_a_verdict()
    ensures { EachHasAVerdict }
{}

/// What the definitions say of small certificates: one that proves, and one for each kind of fault.
pub fn small_certificates()
    ensures { Examples }
{}
