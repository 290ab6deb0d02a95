// Joint plans, their sheets, and sets of joints as a criterion.
#![tactic(auto)]

ghost use Rattle.joints.specs.Laws.{SearchRight, SetsLawful, StripRight, Worked};
ghost use Rattle.joints.specs.RoundTrip.{AdmissionOfSheet, LeftOver, RefusedWhere, SheetOfAdmitted};

mod admit;
mod draft;
mod joint;
mod packing;
mod plan;
mod sets;
mod write;

pub use joint::Joint;
pub use plan::JointPlan;
pub use sets::JointSets;

// A plan comes back from its sheet, and the sheet from its plan; and where a sheet is refused.
pub fn sheet_laws()
    ensures admitted_plan_has_the_sheet { SheetOfAdmitted }
    ensures sheet_is_admitted_as_its_plan { AdmissionOfSheet }
    ensures refused_at_a_word_or_the_end { RefusedWhere }
    ensures five_exactly_after_a_sheet { LeftOver }
{}

// What holds of closed parts, and the worked plan by computation.
pub fn closed_laws()
    ensures search_is_right { SearchRight }
    ensures stripping_keeps_the_verdict { StripRight }
    ensures joint_sets_keep_the_law { SetsLawful }
    ensures worked_plan_computes { Worked }
{}
