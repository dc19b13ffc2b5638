//! What goes in and out as text: the words of a command line, the printed plan, the rounds of an auction, the report on a
//! timetable, payments, compressed times, the summary of a demo, the verdict on a certificate and the evidence that it gives each bid,
//! and the line of each fault.
#![tactic(auto)]

mod audits;
mod command_forms;
mod compressed_times;
mod demos;
mod evidence_texts;
mod evidence_words;
mod faults;
mod path_text;
mod payments;
mod plans;
mod rounds;
mod verdicts;
mod words;

pub use audits::audit_text;
pub use compressed_times::compress_text;
pub use demos::demo_text;
pub use evidence_texts::{BidFigures, EvidenceView, evidence_text};
pub use evidence_words::{EVIDENCE_FORM, EvidenceWords, read_evidence_words};
pub use faults::{FORMS, FaultView, fault_text};
pub use path_text::PathText;
pub use payments::pay_text;
pub use plans::{PlanView, plan_text, text_tells_plan};
pub use rounds::{Award, CloseView, RoundView, close_text, round_text};
pub use verdicts::{VerdictView, verdict_text};
pub use words::{Words, WordsError, read_words};
