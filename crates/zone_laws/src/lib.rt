// What resolution and the start of a day come to, in words of the subject.
#![tactic(auto)]

ghost use Rattle.zone_laws.specs.Resolution.{ResolutionIs, StartIs};

/// The laws of resolution and of the start of a day, over every lawful meaning, each proved.
#[tactic(auto, using(crate::proofs::Resolved::resolution_is, crate::proofs::Resolved::start_is))]
pub fn laws_hold()
    ensures resolution { ResolutionIs }
    ensures start { StartIs }
{}
