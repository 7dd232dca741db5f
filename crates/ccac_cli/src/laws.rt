// What holds of canonical texts and of controllers' texts, as contracts of functions that do nothing.
ghost use Rattle.std.specs.Prelude.{◌≡◌, ◌⊎◌, ℕ, List};
ghost use Rattle.whole.specs.declared.answers.Refusal.{Refusal};
ghost use Rattle.ctrl_syntax.specs.Grammar.{IsText};
ghost use Rattle.ctrl_syntax.specs.Printed.{printed};
ghost use Rattle.ctrl_syntax.specs.Sections.{Sections};
ghost use Rattle.ctrl_syntax.specs.declared.syntax.Syntax.{Syntax};
ghost use Rattle.ctrl_types.specs.declared.controllers.Controller.{Controller};
ghost use Rattle.ctrl_types.specs.Resolving.{SeenController};
ghost use Rattle.ccac_ports.specs.Ports.{Told};
ghost use Rattle.ccac_cli.specs.Admitting.{AdmitAnswers};
ghost use Rattle.ccac_cli.specs.Audits.{AuditAnswers};
ghost use Rattle.ccac_cli.specs.Checks.{CheckAnswers, CheckRefusals};
ghost use Rattle.ccac_cli.specs.Commands.{Order};
ghost use Rattle.ccac_cli.specs.Ended.{ToldAnswers};
ghost use Rattle.ccac_cli.specs.Formats.{FormatAnswers, QuestionFormat};
ghost use Rattle.ccac_cli.specs.Replays.{ReplayAnswers};
ghost use Rattle.file_reports.specs.Reports.{Answer};
ghost use Rattle.ccac_cli.specs.ViewAnswers.{SeenAudit, SeenFormat, SeenPosed, SeenQuestionFormat, SeenRefusal, SeenReplay};
ghost use Rattle.asked.specs.Texts.{IsControllerRefused, IsControllerText, MeansController};

/// The canonical text of a controller stays as it is: whatever it spells has that canonical text. (Of a question this is
/// said by `question_text::print`, whose text is read as the same question.)
pub fn canonical_texts_stay()
    ensures controllers { (bytes : List ℕ) (s t : Sections) → IsText bytes s → IsText (printed s) t → printed t ≡ printed s }
{}

/// Bytes are a controller's text, or they have one first broken rule alone; and one of the two is so.
pub fn controller_texts_are_told_apart()
    ensures one_refusal { (bytes : List ℕ) (r s : Refusal) → IsControllerRefused bytes r → IsControllerRefused bytes s → r ≡ s }
    ensures not_both { (bytes : List ℕ) (syntax : Syntax) (c : Controller) (r : Refusal) → IsControllerText bytes syntax c → IsControllerRefused bytes r → ⊥ }
    ensures either { (bytes : List ℕ) → ((c : SeenController) × MeansController bytes c) ⊎ ((r : Refusal) × IsControllerRefused bytes r) }
{}

/// The bytes of an order's files have one answer: those of a question and a trace that are to be admitted, of a controller, a
/// question and a trace that are to be replayed, or a certificate that is to be checked, and of a controller, or a question
/// for it, that is to be put canonically. A controller and a question that are to be decided have one refusal, and then no
/// verdict.
pub fn one_answer()
    ensures admitted { (question trace : List ℕ) (a b : Answer) → AdmitAnswers question trace a → AdmitAnswers question trace b → a ≡ b }
    ensures formatted { (controller : List ℕ) (a b : Answer) → FormatAnswers controller a → FormatAnswers controller b → a ≡ b }
    ensures replayed { (controller question trace : List ℕ) (a b : Answer) → ReplayAnswers controller question trace a → ReplayAnswers controller question trace b → a ≡ b }
    ensures audited { (controller question cert : List ℕ) (a b : Answer) → AuditAnswers controller question cert a → AuditAnswers controller question cert b → a ≡ b }
    ensures check_refused { (controller question : List ℕ) (a b : Answer) → CheckAnswers controller question a → CheckRefusals controller question b → a ≡ b }
    ensures questions_formatted { (controller question : List ℕ) (a b : Answer) → QuestionFormat controller question a → QuestionFormat controller question b → a ≡ b }
    ensures of_the_files { (old new : Told) (order : Order) (a b : Answer) → ToldAnswers old new order a → ToldAnswers old new order b → a ≡ b }
{}

/// Any bytes have an answer: those of a question and a trace that are to be admitted, of a controller, a question and a trace
/// that are to be replayed, or a certificate that is to be checked, and of a controller, or a question for it, that is to be
/// put canonically; where a controller is read, an answer speaks of it and of the question as they are seen, and each that
/// is given is it. A controller and a question that are to be decided are refused, or pose a problem that isn't too large.
pub fn some_answer()
    ensures admitted { (question trace : List ℕ) → (a : Answer) × AdmitAnswers question trace a }
    ensures formatted { (controller : List ℕ) → (a : Answer) × SeenFormat controller a }
    ensures formatted_once { (controller : List ℕ) (a b : Answer) → SeenFormat controller a → SeenFormat controller b → a ≡ b }
    ensures formatted_so { (controller : List ℕ) (a : Answer) → FormatAnswers controller a → SeenFormat controller a }
    ensures replayed { (controller question trace : List ℕ) → (a : Answer) × SeenReplay controller question trace a }
    ensures replayed_so { (controller question trace : List ℕ) (a b : Answer) → SeenReplay controller question trace a → ReplayAnswers controller question trace b → a ≡ b }
    ensures audited { (controller question cert : List ℕ) → (a : Answer) × SeenAudit controller question cert a }
    ensures audited_so { (controller question cert : List ℕ) (a b : Answer) → SeenAudit controller question cert a → AuditAnswers controller question cert b → a ≡ b }
    ensures checked { (controller question : List ℕ) → ((a : Answer) × SeenRefusal controller question a) ⊎ SeenPosed controller question }
    ensures check_refused_so { (controller question : List ℕ) (a b : Answer) → SeenRefusal controller question a → CheckAnswers controller question b → a ≡ b }
    ensures questions_formatted { (controller question : List ℕ) → (a : Answer) × SeenQuestionFormat controller question a }
    ensures questions_formatted_once { (controller question : List ℕ) (a b : Answer) → SeenQuestionFormat controller question a → SeenQuestionFormat controller question b → a ≡ b }
    ensures questions_formatted_so { (controller question : List ℕ) (a : Answer) → QuestionFormat controller question a → SeenQuestionFormat controller question a }
{}
