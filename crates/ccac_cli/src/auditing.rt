ghost use Rattle.std.specs.Prelude.{◌<◌, ◌-◌, ◌^◌, length};
ghost use Rattle.clause_form.specs.WellFormed.{IsWellFormed};
ghost use Rattle.ctrl_types.specs.Limits.{IsController};
ghost use Rattle.question_text.specs.Limits.{IsQuestion};
ghost use Rattle.ccac_cli.specs.Audits.{AuditAnswers, CertAnswers, ProblemAnswers};
ghost use Rattle.file_reports.specs.Halted.{Replies};

use crate::asking::read_asked;
use crate::reports::{audit_report, size_report};
use crate::saved::behind_verdict;
use asked::Asked;
use cert_check::check;
use cert_text::read_cert;
use clause_form::{BuildFault, Clauses};
use file_reports::{EarlyEnd, Report, Source, halted};
use std::alloc::Global;
use unroll::unroll;

/// The report on a controller, a question and a certificate: the two texts are read, the problem that they pose is unrolled
/// anew, and only then the certificate is read and checked against it.
pub(crate) fn audit(
    alloc: Global,
    controller: &[u8],
    question: &[u8],
    cert: &[u8],
) -> Result<Report, EarlyEnd>
    requires controller_in { length controller.now < 2 ^ 32 - 1 }
    requires question_in { length question.now < 2 ^ 32 - 1 }
    requires cert_in { length cert.now < 2 ^ 32 - 1 }
    ensures { Replies (AuditAnswers controller.now question.now cert.now) result }
{
    let asked = match read_asked(alloc, controller, question) {
        Ok(asked) => asked,
        Err(halt) => return Err(halt),
    };
    audit_problem(alloc, &asked, cert)
}

/// The report on a certificate, where a controller is asked a question.
fn audit_problem(alloc: Global, asked: &Asked, cert: &[u8]) -> Result<Report, EarlyEnd>
    requires controller_in { IsController asked.now.controller }
    requires question_in { IsQuestion (length asked.now.controller.states) asked.now.question }
    requires cert_in { length cert.now < 2 ^ 32 - 1 }
    ensures { Replies (ProblemAnswers cert.now asked.now.controller asked.now.question) result }
{
    match unroll(alloc, &asked.controller, &asked.question) {
        Ok(problem) => audit_cert(alloc, &problem.clauses, cert),
        Err(BuildFault::Large { what, limit }) => Ok(size_report(alloc, what, limit)?),
        Err(BuildFault::NoMemory) => Err(EarlyEnd::NoMemory),
    }
}

/// The report on a certificate, about a problem.
fn audit_cert(alloc: Global, problem: &Clauses, cert: &[u8]) -> Result<Report, EarlyEnd>
    requires formed { IsWellFormed problem.now }
    requires cert_in { length cert.now < 2 ^ 32 - 1 }
    ensures { Replies (CertAnswers problem.now cert.now) result }
{
    match read_cert(alloc, behind_verdict(cert)) {
        Ok(cert) => Ok(audit_report(alloc, check(alloc, problem, &cert))?),
        Err(fault) => Err(halted(alloc, Source::Cert, fault)),
    }
}
