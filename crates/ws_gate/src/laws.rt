ghost use Rattle.std.specs.Prelude.{◌≡◌, ◌↔◌, Ok, Err};
ghost use Rattle.ws_gate.specs.declared.verdicts.Rules.{Rules};
ghost use Rattle.ws_gate.specs.declared.verdicts.Admission.{Admission};
ghost use Rattle.ws_gate.specs.declared.verdicts.Denial.{Denial};
ghost use Rattle.ws_gate.specs.Handshakes.{Handshake};
ghost use Rattle.ws_gate.specs.Admissions.{admission_of};
ghost use Rattle.ws_gate.specs.Rulings.{IsAdmitted, IsDenied};

/// A request is denied exactly for the first rule that it breaks, and admitted exactly where it breaks none, with its token and its
/// protocol.
pub fn handshakes_are_told_apart()
    ensures denied { (h : Handshake) (rules : Rules) (denial : Denial) → (admission_of h rules ≡ Err denial) ↔ IsDenied h rules denial }
    ensures admitted { (h : Handshake) (rules : Rules) (admission : Admission) → (admission_of h rules ≡ Ok admission) ↔ IsAdmitted h rules admission }
{}
