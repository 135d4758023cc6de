//! A script that is stopped in the middle of a move, between two steps that aim passed sources.

ghost use Rattle.std.specs.Prelude.{◌≡◌, ◌+◌, None, Some};
ghost use Rattle.aia_vcpu.specs.Aims.{host_identity, target_of};
ghost use Rattle.aia_vcpu.specs.Home.Home.{OnWay};
ghost use Rattle.aia_vcpu.specs.Home.Way.{Outward};
ghost use Rattle.aia_vcpu.specs.declared.access.Access.TheVariants.{GFence};
ghost use Rattle.aia_vcpu.specs.declared.end.End.TheVariants.{File, Memory};
ghost use Rattle.aia_vcpu.specs.Plans.{plan_step};
ghost use Rattle.aia_vcpu.specs.Vms.{vcpu_of};
ghost use Rattle.aia_model.specs.declared.domain_name.DomainName.TheVariants.{Child};
ghost use Rattle.aia_model.specs.Aim.{pass_reach};
ghost use Rattle.aia_model.specs.Histories.{IsHistory};
ghost use Rattle.aia_model.specs.HomeOf.{home, guest_place};
ghost use Rattle.aia_model.specs.PassesStand.{AllPassesStand};
ghost use Rattle.aia_model.specs.Script.{answers, history_of};
ghost use Rattle.aia_model.specs.Sent.{acts_of};
ghost use Rattle.aia_model.specs.SourceOf.{target};
ghost use Rattle.aia_vectors.specs.Rows.{script_of, answers_of};

/// Two sources are passed to a virtual hart, which begins to leave its guest file: the G-stage
/// record is fenced, and the first source is aimed at the notice hart, but not the second one.
pub const STOPPED_BETWEEN_AIMS: [(&str, &str); 21] = [
    ("machine 1 1 63 2", "ok"),
    ("st 0x0c000004 0x400", "ok"),
    ("st 0x0c000008 0x400", "ok"),
    ("st 0x0c008004 4", "ok"),
    ("st 0x0c008008 4", "ok"),
    ("st 0x0c008000 0x104", "ok"),
    ("st 0x0c001bc4 0x2000", "ok"),
    ("st 0x0c001bc8 0x28000", "ok"),
    ("st 0x0c001bcc 0x500000", "ok"),
    ("vm 1 0x8 0", "ok"),
    ("arrive 0 0 0", "ok"),
    ("pass 1 0 0 5", "ok"),
    ("pass 2 0 0 6", "ok"),
    ("begin leave 0 0", "ok"),
    ("step 0 0", "moving"),
    ("step 0 0", "moving"),
    ("step 0 0", "moving"),
    ("step 0 0", "moving"),
    ("step 0 0", "moving"),
    ("step 0 0", "moving"),
    ("step 0 0", "moving"),
];

/// What holds of the passes after every history is said also of one with passes, in the middle of a
/// move: [`STOPPED_BETWEEN_AIMS`] reaches it, and is answered as it says. By then the first source
/// is aimed at the file of its notice hart, the second one still at guest file 1.
pub fn a_script_stops_between_two_aims()
    ensures answers { answers (script_of STOPPED_BETWEEN_AIMS)
        ≡ answers_of STOPPED_BETWEEN_AIMS }
    ensures happens { IsHistory (history_of (script_of STOPPED_BETWEEN_AIMS)) }
    ensures stand { AllPassesStand (history_of (script_of STOPPED_BETWEEN_AIMS)) }
    ensures leaves { home (history_of (script_of STOPPED_BETWEEN_AIMS)) (vcpu_of 0 0)
        ≡ OnWay (Outward (guest_place 0 1))
        (record { steps = plan_step File Memory 1 GFence + 1; aims = 1 }) }
    ensures first_leads { pass_reach (history_of (script_of STOPPED_BETWEEN_AIMS)) 0 ≡ None }
    ensures first_target { target (acts_of (history_of (script_of STOPPED_BETWEEN_AIMS))) Child 1
        ≡ target_of 0 0 (host_identity 0) }
    ensures second_leads { pass_reach (history_of (script_of STOPPED_BETWEEN_AIMS)) 1
        ≡ Some (guest_place 0 1) }
    ensures second_target { target (acts_of (history_of (script_of STOPPED_BETWEEN_AIMS))) Child 2
        ≡ target_of 0 1 6 }
{}
