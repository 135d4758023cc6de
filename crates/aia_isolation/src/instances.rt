//! The laws at work: what they say of worked scripts, computed.
//!
//! Each function does nothing: its clauses are what was proved, by computing.
#![tactic(auto, unfolding(aia_word::specs::Sets::word_of, aia_word::specs::Sets::least_of, aia_word::specs::Packed::packed, aia_word::specs::Packed::ones, aia_model::specs::Reading::number_at, aia_model::specs::Reading::n32_at, aia_model::specs::Reading::flag_at, aia_model::specs::Reading::csr_at, aia_model::specs::Reading::line_at, aia_model::specs::Reading::reading, aia_model::specs::FileAfter::select_by, aia_model::specs::FileAfter::file_by, aia_model::specs::MajorOf::majors_of, aia_model::specs::HomeOf::home, aia_model::specs::Flight::flight, aia_model::specs::Passes::passes_of, aia_model::specs::ReachOf::in_force_of, aia_model::specs::ReachOf::stage_in_force_of, aia_model::specs::Notice::look_saw, aia_regs::specs::DomainRegisters::domain_register_of, aia_model::specs::Act::newest, aia_model::specs::SourceOf::wire_of, aia_model::specs::SourceOf::enabled, aia_model::specs::SourceOf::target, aia_model::specs::SourceOf::pending, aia_model::specs::AddressOf::addresses_of, aia_model::specs::SourceOf::genmsi_waits, aia_model::specs::Sent::all_senders, aia_model::specs::Answer::answer, aia_model::specs::Answer::after, aia_model::specs::AnswerText::hex_digits, aia_model::specs::Answer::answer_text, crate::specs::Said::said, crate::specs::Guest::guest_by, crate::specs::Replies::replies, crate::specs::Replies::replies_by, crate::specs::Replies::purged, crate::specs::Images::said_after, crate::specs::Concerns::events_for, crate::specs::Reach::deeds_of, crate::specs::Reach::host_by, aia_laws::specs::Newest::newest, aia_laws::specs::Told::told_since))]

ghost use Rattle.std.specs.Prelude.{◌≡◌, true, false, [], ◌∷◌, ◌++◌, length, replicate, Some};
ghost use Rattle.aia_regs.specs.declared.access.Csr.TheVariants.{Select, Reg, Topei, Sip};
ghost use Rattle.aia_regs.specs.declared.access.Op.TheVariants.{Read, Write};
ghost use Rattle.aia_regs.specs.BitUpdate.BitUpdate.{Ask, Clear};
ghost use Rattle.aia_vcpu.specs.Vms.{vcpu_of};
ghost use Rattle.aia_model.specs.Event.{has_machine};
ghost use Rattle.aia_model.specs.Image.{GuestState};
ghost use Rattle.aia_model.specs.StateOf.{state_of};
ghost use Rattle.aia_isolation.specs.Images.{loads_of, IsWholeImage};
ghost use Rattle.aia_vcpu.specs.declared.rest.Rest.TheVariants.{Parked};
ghost use Rattle.aia_vcpu.specs.Home.Home.{InMemory};
ghost use Rattle.aia_model.specs.declared.answer.Answer.TheVariants.{Okay, Narrow, Wide, Refused};
ghost use Rattle.aia_model.specs.GuestFile.{guest_file};
ghost use Rattle.aia_model.specs.HomeOf.{home};
ghost use Rattle.aia_model.specs.FileAfter.FileDeed.{Makes, Accesses, Stores, Relays};
ghost use Rattle.aia_model.specs.FileOf.{SupervisorFile, file_of};
ghost use Rattle.aia_model.specs.Text.{texts_of};
ghost use Rattle.aia_model.specs.Script.{history_of, answers};
ghost use Rattle.aia_laws.specs.Told.{guest_pending_said, host_pending_said, is_deliverable, notice_file, notice_number, told_since};
ghost use Rattle.aia_laws.specs.Newest.{newest};
ghost use Rattle.aia_isolation.specs.Said.{said, without_reads};
ghost use Rattle.aia_isolation.specs.Said.Said.{Made, Asked, Did, Injected, Controlled};
ghost use Rattle.aia_isolation.specs.Replies.{replies_by, script_replies, purged};
ghost use Rattle.aia_isolation.specs.Concerns.{concerns, is_of_machine_level, events_for};
ghost use Rattle.aia_isolation.specs.Parts.{texts_that_pass, answers_to};
ghost use Rattle.aia_isolation.specs.Reach.{deeds_of};
ghost use Rattle.aia_model.specs.declared.line.Line.TheVariants.{Wire, Load, Store, Pass, Move, Begin, Step};
ghost use Rattle.aia_model.specs.declared.want.Want.TheVariants.{Arrive, Leave};
ghost use Rattle.aia_model.specs.declared.refusal.Refusal.TheVariants.{Full, Passed, Unready, NoFile};
ghost use Rattle.aia_model.specs.Sent.{msis_sent_by};
ghost use Rattle.aia_model.specs.Answer.{answer, after, after_lines};
ghost use Rattle.aia_isolation.specs.Beside.{concerns_by_sources, is_of_machine_level_by_sources};
ghost use Rattle.aia_model.specs.Passes.{nth_pass, passed_by};

/// Virtual hart 0 of VM 0 enables 5 and 6, gets 5, is moved, claims 5, is parked, and gets 6, of
/// which the host is told; beside it the machine level, the host and another VM do things.
pub const BUSY: &str = "machine 1 3 63 1
vm 1 0x8 0
vm 1 0x8 0
m 0 csrrw miselect 0x80
arrive 1 0 0
arrive 0 0 0
g 0 0 csrrw siselect 0xc0
st 0x24000000 3
g 0 0 csrrw sireg 0x60
hvictl 0 0 0x100
inject 0 0 5 1
msi 0 0x28000000 5
msi 0 0x28000008 7
h 0 csrrw siselect 0x80
begin shift 0 0 0
step 0 0
step 0 0
step 0 0
msi 1 0x28000000 6
step 0 0
step 0 0
step 0 0
step 0 0
step 0 0
step 0 0
step 0 0
step 0 0
step 0 0
g 1 0 csrr stopei
g 0 0 csrr sip
g 0 0 csrrw stopei 0
leave 0 0
msi 0 0x28000000 6
h 0 csrr sireg
m 0 csrr mireg
";

/// The same with all left out that does not concern VM 0.
pub const ALONE: &str = "machine 1 3 63 1
vm 1 0x8 0
vm 1 0x8 0
arrive 1 0 0
arrive 0 0 0
g 0 0 csrrw siselect 0xc0
g 0 0 csrrw sireg 0x60
hvictl 0 0 0x100
inject 0 0 5 1
msi 0 0x28000000 5
msi 0 0x28000008 7
begin shift 0 0 0
step 0 0
step 0 0
step 0 0
step 0 0
step 0 0
step 0 0
step 0 0
step 0 0
step 0 0
step 0 0
step 0 0
step 0 0
g 0 0 csrr sip
g 0 0 csrrw stopei 0
leave 0 0
msi 0 0x28000000 6
";

/// The answers to it.
pub const ALONE_ANSWERS: &str = "ok
ok
ok
ok
ok
0x0000000000000000
0x0000000000000000
ok
ok
ok
ok
ok
moving
moving
moving
moving
moving
moving
moving
moving
moving
moving
moving
done
0x0000000000000020
0x0000000000050005
ok
ok
";

/// What the machine level is answered in it.
pub const MACHINE_LEVEL_ANSWERS: &str = "ok
0x0000000000000000
ok
0x0000000000000008
";

/// The same things are said to virtual hart 1 of VM 1 of another machine, by a store of virtual
/// hart 0 and by a device, while it stands still but for its one arrival.
pub const STILL: &str = "machine 2 1 63 9
vm 1 0x8 1
vm 2 0x18 0
arrive 1 1 1
arrive 1 0 0
g 1 1 csrrw siselect 0xc0
g 1 1 csrr stopei
g 1 1 csrrw sireg 0x60
hvictl 1 1 0x100
inject 1 1 5 1
g 1 0 ipi 1 5
g 1 1 csrr sip
g 1 1 csrrw stopei 0
msi 1 0x28008000 6
";

/// Virtual hart 0 of VM 0 leaves while two stores are in flight to it. The entry is read again
/// before its fence, the later store lands, and the fence lands the other one; then it comes back
/// and claims both.
pub const FLYING: &str = "machine 1 1 63 1
vm 1 0x8 0
arrive 0 0 0
g 0 0 csrrw siselect 0xc0
g 0 0 csrrw sireg 0x60
send 0 0x28000000 5
send 0 0x28000000 6
begin leave 0 0
step 0 0
step 0 0
step 0 0
refetch 0 0
land 0 1
step 0 0
step 0 0
step 0 0
step 0 0
step 0 0
step 0 0
step 0 0
step 0 0
step 0 0
step 0 0
arrive 0 0 0
g 0 0 csrrw stopei 0
g 0 0 csrrw stopei 0
";

/// The same stores land while it stays where it is.
pub const STAYING: &str = "machine 1 1 63 1
vm 1 0x8 0
arrive 0 0 0
g 0 0 csrrw siselect 0xc0
g 0 0 csrrw sireg 0x60
send 0 0x28000000 5
send 0 0x28000000 6
refetch 0 0
land 0 1
land 0 0
g 0 0 csrrw stopei 0
g 0 0 csrrw stopei 0
";

/// Source 1 is passed to virtual hart 0 of VM 0 and forwarded, as 5, to the guest file where it is.
pub const PASSED: &str = "machine 1 1 63 8
st 0x0c000004 0x400
st 0x0c008004 4
st 0x0c008000 0x104
st 0x0c001bc4 0x2000
st 0x0c001bc8 0x28000
st 0x0c001bcc 0x500000
st 0x0c009edc 1
vm 1 0x8 0
arrive 0 0 0
g 0 0 csrrw siselect 0xc0
g 0 0 csrrw sireg 0x20
pass 1 0 0 5
wire 1 1
g 0 0 csrrw stopei 0
ld 0x0c00b004
";

/// The same up to the wire, when nothing has asked for 5 yet.
pub const READY: &str = "machine 1 1 63 8
st 0x0c000004 0x400
st 0x0c008004 4
st 0x0c008000 0x104
st 0x0c001bc4 0x2000
st 0x0c001bc8 0x28000
st 0x0c001bcc 0x500000
st 0x0c009edc 1
vm 1 0x8 0
arrive 0 0 0
g 0 0 csrrw siselect 0xc0
g 0 0 csrrw sireg 0x20
pass 1 0 0 5
";

/// It is forwarded while the virtual hart is away, and given on by the host.
pub const PASSED_AWAY: &str = "machine 1 1 63 8
st 0x0c000004 0x400
st 0x0c008004 4
st 0x0c008000 0x104
st 0x0c001bc4 0x2000
st 0x0c001bc8 0x28000
st 0x0c001bcc 0x500000
st 0x0c009edc 1
vm 1 0x8 0
arrive 0 0 0
g 0 0 csrrw siselect 0xc0
g 0 0 csrrw sireg 0x20
pass 1 0 0 5
leave 0 0
wire 1 1
arrive 0 0 0
g 0 0 csrrw stopei 0
ld 0x0c00b004
";

/// `PASSED` with all left out that does not concern VM 0.
pub const UNPASSED: &str = "machine 1 1 63 8
vm 1 0x8 0
arrive 0 0 0
g 0 0 csrrw siselect 0xc0
g 0 0 csrrw sireg 0x20
g 0 0 csrrw stopei 0
";

/// `PASSED` with all left out that does not concern the machine level.
pub const UNAIMED: &str = "machine 1 1 63 8
st 0x0c000004 0x400
st 0x0c008004 4
st 0x0c008000 0x104
st 0x0c001bc4 0x2000
st 0x0c001bc8 0x28000
st 0x0c001bcc 0x500000
st 0x0c009edc 1
wire 1 1
ld 0x0c00b004
";

/// What VM 0 and the machine level are answered there, alone and beside each other.
pub const UNPASSED_ANSWERS: &str = "ok
ok
ok
0x0000000000000000
0x0000000000000000
0x0000000000000000
";

pub const PASSED_ANSWERS: &str = "ok
ok
ok
0x0000000000000000
0x0000000000000000
0x0000000000050005
";

pub const UNAIMED_ANSWERS: &str = "ok
ok
ok
ok
ok
ok
ok
ok
ok
0x00000000
";

pub const AIMED_ANSWERS: &str = "ok
ok
ok
ok
ok
ok
ok
ok
ok
0x00001005
";

/// Two VMs, and two sources that may be passed; each hart has one guest file.
pub const TWO: &str = "machine 1 1 63 8
st 0x0c000004 0x400
st 0x0c000008 0x400
st 0x0c008004 4
st 0x0c008008 4
st 0x0c008000 0x104
st 0x0c001bc4 0x2000
st 0x0c001bc8 0x28000
st 0x0c001bcc 0x500000
st 0x0c009edc 1
vm 1 0x8 0
vm 1 0x8 0
";

/// A source is passed to VM 0 and forwarded, while others do things: VM 1, the hypervisor, and the
/// host at machine level and at supervisor level.
pub const BESIDE: &str = "machine 1 2 63 8
st 0x0c000004 0x400
st 0x0c008004 4
st 0x0c008000 0x104
st 0x0c001bc4 0x2000
st 0x0c001bc8 0x28000
st 0x0c001bcc 0x500000
st 0x0c009edc 1
vm 1 0x8 0
vm 1 0x8 0
m 0 csrrw miselect 0x80
arrive 0 0 0
arrive 1 0 0
h 0 csrrw siselect 0x80
g 0 0 csrrw siselect 0xc0
g 1 0 csrrw siselect 0xc0
g 0 0 csrrw sireg 0x20
pass 1 0 0 5
msi 1 0x28000000 6
inject 1 0 5 1
st 0x24000000 3
wire 1 1
ld 0x0c00b004
g 0 0 csrrw stopei 0
m 0 csrr mireg
";

/// What is left of it for VM 0, and for the machine level.
pub const BESIDE_VM: &str = "machine 1 2 63 8
st 0x0c000004 0x400
st 0x0c008004 4
st 0x0c008000 0x104
st 0x0c001bc4 0x2000
st 0x0c001bc8 0x28000
st 0x0c001bcc 0x500000
st 0x0c009edc 1
vm 1 0x8 0
vm 1 0x8 0
arrive 0 0 0
arrive 1 0 0
g 0 0 csrrw siselect 0xc0
g 0 0 csrrw sireg 0x20
pass 1 0 0 5
wire 1 1
ld 0x0c00b004
g 0 0 csrrw stopei 0
";

pub const BESIDE_MACHINE: &str = "machine 1 2 63 8
st 0x0c000004 0x400
st 0x0c008004 4
st 0x0c008000 0x104
st 0x0c001bc4 0x2000
st 0x0c001bc8 0x28000
st 0x0c001bcc 0x500000
st 0x0c009edc 1
vm 1 0x8 0
vm 1 0x8 0
m 0 csrrw miselect 0x80
arrive 0 0 0
arrive 1 0 0
pass 1 0 0 5
st 0x24000000 3
wire 1 1
ld 0x0c00b004
m 0 csrr mireg
";

/// The answers to these.
pub const BESIDE_VM_ANSWERS: &str = "ok
ok
ok
ok
ok
ok
ok
ok
ok
ok
ok
ok
0x0000000000000000
0x0000000000000000
ok
ok
0x00001005
0x0000000000050005
";

pub const BESIDE_MACHINE_ANSWERS: &str = "ok
ok
ok
ok
ok
ok
ok
ok
ok
ok
0x0000000000000000
ok
ok
ok
ok
ok
0x00001005
0x0000000000000008
";

/// As many sources as may be passed are passed to VM 1.
pub const FULL_PASSES: &str = "machine 1 1 63 17
st 0x0c000004 0x400
st 0x0c000008 0x400
st 0x0c00000c 0x400
st 0x0c000010 0x400
st 0x0c000014 0x400
st 0x0c000018 0x400
st 0x0c00001c 0x400
st 0x0c000020 0x400
st 0x0c000024 0x400
st 0x0c000028 0x400
st 0x0c00002c 0x400
st 0x0c000030 0x400
st 0x0c000034 0x400
st 0x0c000038 0x400
st 0x0c00003c 0x400
st 0x0c000040 0x400
st 0x0c000044 0x400
st 0x0c008004 4
st 0x0c008008 4
st 0x0c00800c 4
st 0x0c008010 4
st 0x0c008014 4
st 0x0c008018 4
st 0x0c00801c 4
st 0x0c008020 4
st 0x0c008024 4
st 0x0c008028 4
st 0x0c00802c 4
st 0x0c008030 4
st 0x0c008034 4
st 0x0c008038 4
st 0x0c00803c 4
st 0x0c008040 4
st 0x0c008044 4
st 0x0c008000 0x104
st 0x0c001bc4 0x2000
st 0x0c001bc8 0x28000
st 0x0c001bcc 0x500000
vm 1 0x8 0
vm 1 0x8 0
pass 2 1 0 5
pass 3 1 0 5
pass 4 1 0 5
pass 5 1 0 5
pass 6 1 0 5
pass 7 1 0 5
pass 8 1 0 5
pass 9 1 0 5
pass 10 1 0 5
pass 11 1 0 5
pass 12 1 0 5
pass 13 1 0 5
pass 14 1 0 5
pass 15 1 0 5
pass 16 1 0 5
pass 17 1 0 5
";

/// Virtual hart 0 of VM 0 enables 5 and 6 and its majors, gets 5, is parked, and each part of its
/// image is saved.
pub const SAVED: &str = "machine 1 1 63 8
vm 1 0x8 0
arrive 0 0 0
g 0 0 csrrw siselect 0xc0
g 0 0 csrrw sireg 0x60
g 0 0 csrrw siselect 0x70
g 0 0 csrrw sireg 1
g 0 0 csrrw sie 0x220
inject 0 0 5 1
hviprio 0 0 0x500
hvictl 0 0 0x100
msi 0 0x28000000 5
leave 0 0
save 0 0 0
save 0 0 1
save 0 0 2
save 0 0 3
";

/// The answers to it.
pub const SAVED_ANSWERS: &str = "ok
ok
ok
0x0000000000000000
0x0000000000000000
0x00000000000000c0
0x0000000000000000
0x0000000000000000
ok
ok
ok
ok
ok
image 1 63 1 0 0x0000000000000070
majors 0x0000000000000020 0x0000000000000220
prio 0x0000000000000500 0x0000000000000100
word 0 0x0000000000000020 0x0000000000000060
";

/// The same parts are loaded into virtual hart 1 of VM 0 of another machine, in another order and
/// one of them twice, while a store is for virtual hart 0; then it arrives, and claims.
pub const LOADED: &str = "machine 2 1 63 1
vm 2 0x8 1
load 0 1 word 0 0x0000000000000020 0x0000000000000060
load 0 1 majors 0x0000000000000020 0x0000000000000220
msi 0 0x28000000 7
load 0 1 image 1 63 1 0 0x0000000000000070
load 0 1 word 0 0x0000000000000020 0x0000000000000060
load 0 1 prio 0x0000000000000500 0x0000000000000100
arrive 0 1 1
g 0 1 csrr sip
g 0 1 csrrw stopei 0
g 0 1 csrr siselect
";

/// What is said to a virtual hart is the same in two scripts that have nothing else in common, but
/// for a read of its own in the second: so it is the same in both, and its replies are, but for
/// that read's. A store that names no identity says nothing, and all that says nothing may be left
/// out.
pub fn two_scripts_say_the_same()
    ensures busy { said (history_of BUSY.now) (vcpu_of 0 0)
        ≡ Asked 6 ∷ Did Topei (Write 0) ∷ Did Sip Read ∷ Asked 5 ∷ Injected 5 true
        ∷ Controlled 0x100 ∷ Did Reg (Write 0x60) ∷ Did Select (Write 0xc0) ∷ Made 63 ∷ [] }
    ensures still { said (history_of STILL.now) (vcpu_of 1 1)
        ≡ Asked 6 ∷ Did Topei (Write 0) ∷ Did Sip Read ∷ Asked 5 ∷ Injected 5 true
        ∷ Controlled 0x100 ∷ Did Reg (Write 0x60) ∷ Did Topei Read ∷ Did Select (Write 0xc0)
        ∷ Made 63 ∷ [] }
    ensures without_reads { without_reads (said (history_of BUSY.now) (vcpu_of 0 0))
        ≡ without_reads (said (history_of STILL.now) (vcpu_of 1 1)) }
    ensures busy_replies { script_replies BUSY.now (vcpu_of 0 0)
        ≡ Wide 0 ∷ Wide 0 ∷ Wide 0x20 ∷ Wide 0x50005 ∷ [] }
    ensures still_replies { script_replies STILL.now (vcpu_of 1 1)
        ≡ Wide 0 ∷ Wide 0 ∷ Wide 0 ∷ Wide 0x20 ∷ Wide 0x50005 ∷ [] }
    ensures automaton { replies_by (said (history_of BUSY.now) (vcpu_of 0 0))
        ≡ Wide 0x50005 ∷ Wide 0x20 ∷ Wide 0 ∷ Wide 0 ∷ [] }
    ensures left_out { length (purged (history_of BUSY.now) (vcpu_of 0 0)) ≡ 11 }
{}

/// The lines that concern a VM are answered as in the script that has no others, and so are those
/// of the machine level.
pub fn a_vm_and_the_machine_level_are_answered_alone()
    ensures part { texts_of ALONE.now ≡ texts_that_pass (concerns 0) BUSY.now }
    ensures alone { answers ALONE.now ≡ ALONE_ANSWERS.now }
    ensures busy { answers_to (concerns 0) BUSY.now ≡ ALONE_ANSWERS.now }
    ensures machine_level { answers_to is_of_machine_level BUSY.now ≡ MACHINE_LEVEL_ANSWERS.now }
    ensures same_events { events_for 0 (history_of BUSY.now) ≡ events_for 0 (history_of ALONE.now) }
{}

/// The newest word decides: 6 was asked for last at the virtual hart, and 5 was cleared last, by
/// the claim; and the host is told of 6, at the notice identity of the virtual hart, which is
/// pending then. All that was done at the host's file are the host's own instructions, and that
/// notice.
pub fn the_host_is_told_of_what_is_pending()
    ensures asked { newest (λ past event. guest_pending_said past event (vcpu_of 0 0) 6)
        (history_of BUSY.now) ≡ Ask }
    ensures cleared { newest (λ past event. guest_pending_said past event (vcpu_of 0 0) 5)
        (history_of BUSY.now) ≡ Clear }
    ensures pending { (guest_file (history_of BUSY.now) (vcpu_of 0 0)).pending 6 ≡ true }
    ensures parked { home (history_of BUSY.now) (vcpu_of 0 0) ≡ InMemory Parked }
    ensures deliverable { is_deliverable (history_of BUSY.now) (vcpu_of 0 0) 6 ≡ true }
    ensures told { told_since (history_of BUSY.now)
        (notice_file (history_of BUSY.now) (vcpu_of 0 0))
        (notice_number (history_of BUSY.now) (vcpu_of 0 0)) (vcpu_of 0 0) 6 ≡ true }
    ensures seen { (file_of (history_of BUSY.now) (SupervisorFile 0)).pending 1 ≡ true }
    ensures deeds { deeds_of (history_of BUSY.now) (SupervisorFile 0)
        ≡ Accesses Reg Read ∷ Stores 0 1 ∷ Accesses Select (Write 0x80) ∷ Makes 63 ∷ [] }
    ensures host { newest (λ past event. host_pending_said past event (SupervisorFile 0) 1)
        (history_of BUSY.now) ≡ Ask }
{}

/// A virtual hart that leaves while stores are in flight to it is told what it would be told where
/// it is: the same concerns its VM in both scripts, the landing that the fence does among that. So
/// it was said the same, and was answered the same. The host is told by one notice,
/// since a look of the leave saw what was pending and enabled; and of what may be left out nothing
/// is a send or a landing.
pub fn a_guest_leaves_while_stores_are_in_flight()
    ensures same_events { events_for 0 (history_of FLYING.now)
        ≡ events_for 0 (history_of STAYING.now) }
    ensures said { said (history_of FLYING.now) (vcpu_of 0 0)
        ≡ Did Topei (Write 0) ∷ Did Topei (Write 0) ∷ Asked 5 ∷ Asked 6 ∷ Did Reg (Write 0x60)
        ∷ Did Select (Write 0xc0) ∷ Made 63 ∷ [] }
    ensures flying { script_replies FLYING.now (vcpu_of 0 0)
        ≡ Wide 0 ∷ Wide 0 ∷ Wide 0x50005 ∷ Wide 0x60006 ∷ [] }
    ensures staying { script_replies STAYING.now (vcpu_of 0 0)
        ≡ Wide 0 ∷ Wide 0 ∷ Wide 0x50005 ∷ Wide 0x60006 ∷ [] }
    ensures deeds { deeds_of (history_of FLYING.now) (SupervisorFile 0)
        ≡ Stores 0 1 ∷ Makes 63 ∷ [] }
    ensures left_out { length (purged (history_of FLYING.now) (vcpu_of 0 0)) ≡ 10 }
{}

/// A source that is passed is heard the same whether its virtual hart is in a guest file or away:
/// the same concerns its VM in both scripts, and it is said the same and answered the same.
pub fn a_passed_source_is_heard_the_same_wherever_its_guest_is()
    ensures same_events { events_for 0 (history_of PASSED.now)
        ≡ events_for 0 (history_of PASSED_AWAY.now) }
    ensures said { said (history_of PASSED.now) (vcpu_of 0 0)
        ≡ Did Topei (Write 0) ∷ Asked 5 ∷ Did Reg (Write 0x20) ∷ Did Select (Write 0xc0)
        ∷ Made 63 ∷ [] }
    ensures here { script_replies PASSED.now (vcpu_of 0 0)
        ≡ Wide 0 ∷ Wide 0 ∷ Wide 0x50005 ∷ [] }
    ensures away { script_replies PASSED_AWAY.now (vcpu_of 0 0)
        ≡ Wide 0 ∷ Wide 0 ∷ Wide 0x50005 ∷ [] }
    ensures deeds { deeds_of (history_of PASSED_AWAY.now) (SupervisorFile 0)
        ≡ Relays 33 (Some 1) ∷ Stores 0 33 ∷ Makes 63 ∷ [] }
{}

/// A line of a wire adds the identity that it forwards, which nothing asked for, and no other one;
/// and with that it adds nothing at a virtual hart to which the source is not passed.
pub fn a_wire_adds_what_it_forwards()
    ensures stands { has_machine (history_of READY.now) ≡ true }
    ensures before { (guest_file (history_of READY.now) (vcpu_of 0 0)).pending 5 ≡ false }
    ensures after { (guest_file (after (history_of READY.now) (Wire 1 true))
        (vcpu_of 0 0)).pending 5
        ≡ true }
    ensures other { (guest_file (after (history_of READY.now) (Wire 1 true))
        (vcpu_of 0 0)).pending 6
        ≡ false }
    ensures sent { msis_sent_by (history_of READY.now) (Wire 1 true)
        ≡ record { address = 0x28001000; value = 5; source = Some 1 } ∷ [] }
    ensures passed { passed_by (history_of READY.now) (Some 1) ≡ Some 0 }
    ensures pass { nth_pass (history_of READY.now) 0
        ≡ record { source = 1; to = vcpu_of 0 0; identity = 5 } }
{}

/// Where a source is passed, neither its VM nor the machine level is answered as if it were alone:
/// without the wire the virtual hart claims nothing, and without the pass the source has no target.
pub fn with_a_source_passed_no_part_is_answered_alone()
    ensures vm_part { texts_of UNPASSED.now ≡ texts_that_pass (concerns 0) PASSED.now }
    ensures vm_alone { answers UNPASSED.now ≡ UNPASSED_ANSWERS.now }
    ensures vm_beside { answers_to (concerns 0) PASSED.now ≡ PASSED_ANSWERS.now }
    ensures machine_part { texts_of UNAIMED.now ≡ texts_that_pass is_of_machine_level PASSED.now }
    ensures machine_alone { answers UNAIMED.now ≡ UNAIMED_ANSWERS.now }
    ensures machine_beside { answers_to is_of_machine_level PASSED.now ≡ AIMED_ANSWERS.now }
{}

/// With a source passed, a VM and the machine level are answered by what is left for them, and not
/// by less.
pub fn a_vm_and_the_machine_level_are_answered_beside_passes()
    ensures vm_part { texts_of BESIDE_VM.now
        ≡ texts_that_pass (concerns_by_sources 0) BESIDE.now }
    ensures vm_alone { answers BESIDE_VM.now ≡ BESIDE_VM_ANSWERS.now }
    ensures vm_beside { answers_to (concerns_by_sources 0) BESIDE.now ≡ BESIDE_VM_ANSWERS.now }
    ensures machine_part { texts_of BESIDE_MACHINE.now
        ≡ texts_that_pass is_of_machine_level_by_sources BESIDE.now }
    ensures machine_alone { answers BESIDE_MACHINE.now ≡ BESIDE_MACHINE_ANSWERS.now }
    ensures machine_beside { answers_to is_of_machine_level_by_sources BESIDE.now
        ≡ BESIDE_MACHINE_ANSWERS.now }
{}

/// What a pass to VM 1 tells: to a pass to VM 0 that its source is passed, or that no more may be,
/// and its own number, by which its source is known at the notice hart while its virtual hart is
/// away. The host may not store what would redirect it, so that a later pass finds its source
/// ready. And a move of its virtual hart has one step more, so that the guest file is free later.
pub fn what_a_pass_to_another_vm_tells()
    ensures free { answer (history_of TWO.now) (Pass 1 0 0 5) ≡ Okay }
    ensures passed { answer (after (history_of TWO.now) (Pass 1 1 0 5)) (Pass 1 0 0 5)
        ≡ Refused Passed }
    ensures full { answer (history_of FULL_PASSES.now) (Pass 1 0 0 5) ≡ Refused Full }
    ensures first { answer (after (history_of TWO.now) (Pass 1 0 0 5)) (Load 0x0c00b004)
        ≡ Narrow 33 }
    ensures second { answer (after_lines (history_of TWO.now) (Pass 2 1 0 5 ∷ Pass 1 0 0 5 ∷ []))
        (Load 0x0c00b004) ≡ Narrow 34 }
    ensures redirected { answer (after (history_of TWO.now) (Store 0x0c008000 0x100))
        (Pass 1 0 0 5) ≡ Refused Unready }
    ensures guarded { answer (after_lines (history_of TWO.now)
        (Pass 2 1 0 5 ∷ Store 0x0c008000 0x100 ∷ [])) (Pass 1 0 0 5) ≡ Okay }
    ensures left { answer (after_lines (history_of TWO.now)
        (Move 1 0 (Arrive 0) ∷ Begin 1 0 Leave ∷ replicate 13 (Step 1 0))) (Move 0 0 (Arrive 0))
        ≡ Okay }
    ensures leaving { answer (after_lines (history_of TWO.now) (Pass 2 1 0 5
        ∷ Move 1 0 (Arrive 0) ∷ Begin 1 0 Leave ∷ replicate 13 (Step 1 0)))
        (Move 0 0 (Arrive 0)) ≡ Refused NoFile }
{}

/// What is printed for the parts of an image is loaded into another virtual hart: what it was said
/// is all parts of the image, and then its own instructions, which are answered as if they came
/// after all that the first one was told. Any list of loads that has each part is a whole image.
pub fn an_image_is_carried_from_one_script_to_another()
    ensures saved { answers SAVED.now ≡ SAVED_ANSWERS.now }
    ensures stands { has_machine (history_of SAVED.now) ≡ true }
    ensures size { (state_of (history_of SAVED.now) (vcpu_of 0 0)).file.n ≡ 63 }
    ensures said { said (history_of LOADED.now) (vcpu_of 0 1)
        ≡ (Did Select Read ∷ Did Topei (Write 0) ∷ Did Sip Read ∷ [])
        ++ (loads_of (state_of (history_of SAVED.now) (vcpu_of 0 0)) (2 ∷ 3 ∷ 0 ∷ 1 ∷ 3 ∷ [])
        ++ Made 63 ∷ []) }
    ensures whole { (image : GuestState) → image.file.n ≡ 63
        → IsWholeImage image (loads_of image (2 ∷ 3 ∷ 0 ∷ 1 ∷ 3 ∷ []) ++ Made 63 ∷ []) }
    ensures replies { script_replies LOADED.now (vcpu_of 0 1)
        ≡ Wide 0x220 ∷ Wide 0x50005 ∷ Wide 0x70 ∷ [] }
    ensures automaton { replies_by ((Did Select Read ∷ Did Topei (Write 0) ∷ Did Sip Read ∷ [])
        ++ said (history_of SAVED.now) (vcpu_of 0 0))
        ≡ Wide 0x70 ∷ Wide 0x50005 ∷ Wide 0x220 ∷ Wide 0 ∷ Wide 0 ∷ Wide 0xc0 ∷ Wide 0 ∷ Wide 0
        ∷ [] }
{}
