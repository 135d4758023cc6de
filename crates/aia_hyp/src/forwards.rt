ghost use Rattle.std.specs.Prelude.{◌≡◌, ◌≢◌, ◌<◌, ◌≤◌, length, ◌∷◌, Option, Some, None, IfOk};
ghost use Rattle.std.specs.Option.{option_map};
ghost use Rattle.std.specs.Result.{result_err};
ghost use Rattle.std.specs.Int.{is_in_range};
ghost use Rattle.aia_regs.specs.declared.limits.TheConstants.{GUEST_FILES, IDENTITIES, PASSES};
ghost use Rattle.aia_file.specs.Map.{spot_at};
ghost use Rattle.aia_file.specs.Imsic.{IsThere};
ghost use Rattle.aia_vcpu.specs.declared.place.GuestPlace.{GuestPlace};
ghost use Rattle.aia_vcpu.specs.Aims.{target_to};
ghost use Rattle.aia_model.specs.declared.answer.Answer.TheVariants.{Okay, Refused};
ghost use Rattle.aia_model.specs.declared.line.Line.TheVariants as lines;
ghost use Rattle.aia_model.specs.Event.{History};
ghost use Rattle.aia_model.specs.Event.Event.{Accepted, Delivered, Relayed};
ghost use Rattle.aia_model.specs.Aim.{aimed_by};
ghost use Rattle.aia_model.specs.Passes.{is_passed, passes_of};
ghost use Rattle.aia_model.specs.Refusal.{refusal};
ghost use Rattle.aia_hyp_values.specs.Core.{resident_at};
ghost use Rattle.aia_fabric_values.specs.Found.{IsFound};
ghost use Rattle.aia_hyp_values.specs.Moves.{UnlessRefused};
ghost use Rattle.aia_hyp_values.specs.Passes.{AimsBy, TellsOf, number_of_pass};
ghost use Rattle.aia_hyp_values.specs.Stands.{CoreStands, CorePasses, CoreHears, CoreGoes, MayPass, RefusesPass, MayGo, answer_by, line_served};
ghost use Rattle.aia_hyp_values.specs.Targets.{TargetsStand};
ghost use Rattle.aia_model.specs.Histories.{IsHistory};

use crate::hypervisor_core::{Core, is_host};
use aia_fabric::Found;
use aia_file::Spot;
use aia_hyp_values::{Passed, Stay};
use aia_model::{Msi, Refusal};
use aia_move::{Plan, Targets};
use aia_regs::address_map::PAGE;
use aia_regs::limits::{FIRST_PASS_IDENTITY, PASSES};
use aia_regs::{FileReg, Op};

/// Wired sources that are passed to virtual harts, and the MSIs that an APLIC makes.
impl Core {
    /// Passes a wired source that is there to a virtual hart, as an identity of its file, for good:
    /// from now on it asks there, wherever the virtual hart's interrupts are kept. The source is
    /// aimed at the virtual hart's guest file where it is resident, and else at its notice hart.
    /// `Err` is `Range` where the virtual hart isn't there or its file has no such identity, `Full`
    /// where `PASSES` passes stand, `Busy` where the virtual hart is being moved, `Passed` where
    /// the source is passed already, `Unready` where no MSIs to guests may be made of it; nothing
    /// is changed then. Profile: passes.
    pub fn pass<T: Targets>(
        &mut self,
        source: u32,
        vm: u64,
        vcpu: u64,
        identity: u64,
        targets: &mut T,
    ) -> Result<(), Refusal>
        requires harts { self.old.world.imsic.harts ≡ (T.map targets.old).harts }
        requires may { MayPass self.old (T.map targets.old) source }
        ensures takes { CorePasses self.old self.new (T.map targets.old) source
            (lines.Pass source vm vcpu identity) (answer_by (λ _. Okay) result) }
        ensures aims { (h : History) → CoreStands self.old h
            → TellsOf (T.map targets.old) h source
            → UnlessRefused (refusal h (lines.Pass source vm vcpu identity))
            (AimsBy T.aimed (aimed_by h (Accepted (lines.Pass source vm vcpu identity)))
            targets.old targets.new) (targets.new ≡ targets.old) }
        ensures targets { (h : History) → IsHistory h → CoreStands self.old h
            → TellsOf (T.map targets.old) h source
            → TargetsStand (T.map targets.old) h → TargetsStand (T.map targets.new)
            (line_served (refusal h (lines.Pass source vm vcpu identity)) h
            (lines.Pass source vm vcpu identity)) }
    {
        match self.may_pass(source, vm, vcpu, identity, targets) {
            Ok(found) => {
                self.pass_to(found, source, identity as u32, targets);
                Ok(())
            }
            Err(word) => Err(word),
        }
    }

    /// Finds the virtual hart to which a source is to be passed, or the word that refuses it.
    fn may_pass<T: Targets>(
        &self,
        source: u32,
        vm: u64,
        vcpu: u64,
        identity: u64,
        targets: &T,
    ) -> Result<Found, Refusal>
        ensures refusal { RefusesPass self.now (T.map targets.now) source vm vcpu identity
            (option_map Refused (result_err result)) }
        ensures found { IfOk result (λ found. IsFound self.now.world found) }
        ensures named { IfOk result (λ found. (found.vm ≡ vm) × (found.vcpu ≡ vcpu)) }
        ensures identity { IfOk result (λ _. identity ≤ IDENTITIES) }
    {
        self.fabric.recall();
        let Some(found) = self.fabric.find(vm, vcpu) else {
            return Err(Refusal::Range);
        };
        if !self.has_identity(identity) {
            return Err(Refusal::Range);
        }
        if self.passes.count() >= PASSES {
            return Err(Refusal::Full);
        }
        if self.is_moved(found) {
            return Err(Refusal::Busy);
        }
        if self.passes.number_of(source).is_some() {
            return Err(Refusal::Passed);
        }
        if !targets.ready(source) {
            return Err(Refusal::Unready);
        }
        Ok(found)
    }

    /// Passes a source to a virtual hart, where nothing refuses it.
    fn pass_to<T: Targets>(&mut self, found: Found, source: u32, identity: u32, targets: &mut T)
        requires harts { self.old.world.imsic.harts ≡ (T.map targets.old).harts }
        requires may { MayPass self.old (T.map targets.old) source }
        requires found { IsFound self.old.world found }
        requires free { RefusesPass self.old (T.map targets.old) source found.vm
            found.vcpu identity None }
        ensures passes { (h : History) → CoreStands self.old h
            → TellsOf (T.map targets.old) h source
            → CoreStands self.new
            (Accepted (lines.Pass source found.vm found.vcpu identity) ∷ h) }
        ensures aims { (h : History) → CoreStands self.old h
            → AimsBy T.aimed
            (aimed_by h (Accepted (lines.Pass source found.vm found.vcpu identity)))
            targets.old targets.new }
    {
        self.fabric.recall();
        let stay = &self.vcpus[found.slot as usize].stay;
        let number = self.passes.count() as u32;
        aim_first(source, stay, found.notice, number, identity, targets);
        self.passes.push(Passed {
            source,
            vm: found.vm,
            vcpu: found.vcpu,
            identity,
        });
    }

    /// Tells whether the files have an identity.
    fn has_identity(&self, identity: u64) -> bool
        ensures { result ≡ is_in_range 1 self.now.world.n identity }
    {
        (1..64 * u64::from(self.fabric.words())).contains(&identity)
    }

    /// Tells whether a source is passed. Profile: passes.
    pub fn passed(&self, source: u32) -> bool
        ensures { (h : History) → CoreStands self.now h → result ≡ is_passed h source }
    {
        self.passes.number_of(source).is_some()
    }

    /// Tells how many sources are passed, up to `PASSES`. Profile: passes.
    pub fn passes(&self) -> usize
        ensures value { (h : History) → CoreStands self.now h → result ≡ length (passes_of h) }
        ensures few { result ≤ PASSES }
    {
        self.passes.count()
    }

    /// Delivers an MSI of an APLIC to the file in whose page its address lies: a machine-level or a
    /// supervisor file that is there, or, of a passed source, the guest file of its virtual hart;
    /// elsewhere it is dropped. An MSI of a passed source goes where its pass leads. Where that is
    /// its notice hart, the hypervisor takes the pass's identity back there, and gives the
    /// interrupt on to the slot of the virtual hart, with a notice where one is due. Profile.
    pub fn deliver(&mut self, msi: Msi)
        requires { MayGo self.old (Delivered msi) }
        ensures { CoreHears self.old self.new msi }
    {
        self.fabric.recall();
        let spot = self.fabric.locate(msi.address);
        match self.pass_of(msi.source) {
            None => self.hear(spot, msi),
            Some(number) => {
                self.land_forward(number, spot, msi);
                if is_host(spot) {
                    self.relay(number);
                }
            }
        }
    }

    /// Tells the number of the pass of a source, if there is one. `None` where it is not passed.
    fn pass_of(&self, source: Option<u32>) -> Option<u32>
        ensures passes { result ≡ number_of_pass self.now.passes source }
    {
        self.passes.number_of(source?)
    }

    /// Delivers an MSI that comes from no passed source.
    fn hear(&mut self, spot: Spot, msi: Msi)
        requires may { MayGo self.old (Delivered msi) }
        requires at { spot
            ≡ spot_at self.old.world.imsic.harts self.old.world.imsic.guests msi.address }
        requires there { spot ≢ Spot.Nowhere → IsThere self.old.world.imsic spot }
        requires none { number_of_pass self.old.passes msi.source ≡ None }
        ensures { CoreHears self.old self.new msi }
    {
        self.fabric.recall();
        if is_host(spot) {
            self.fabric
                .host_store(spot, (msi.address % PAGE) as u32, msi.value);
        }
    }

    /// Delivers an MSI of a passed source to the file to which its pass leads.
    fn land_forward(&mut self, number: u32, spot: Spot, msi: Msi)
        requires may { MayGo self.old (Delivered msi) }
        requires at { spot
            ≡ spot_at self.old.world.imsic.harts self.old.world.imsic.guests msi.address }
        requires there { spot ≢ Spot.Nowhere → IsThere self.old.world.imsic spot }
        requires pass { number_of_pass self.old.passes msi.source ≡ Some number }
        ensures { CoreGoes self.old self.new (Delivered msi) }
    {
        self.fabric.recall();
        self.fabric
            .host_store(spot, (msi.address % PAGE) as u32, msi.value);
    }

    /// Gives the interrupt of a pass on, from its notice hart to the slot of its virtual hart.
    fn relay(&mut self, number: u32)
        requires { MayGo self.old (Relayed number) }
        ensures { CoreGoes self.old self.new (Relayed number) }
    {
        self.fabric.recall();
        self.passes.recall_count();
        let pass = self.passes.at(number);
        let notice = self.fabric.notice_hart(pass.vm);
        let slot = self.fabric.slot_of(pass.vm, pass.vcpu);
        let taken = Op::Clear(1 << (FIRST_PASS_IDENTITY + number));
        self.fabric
            .reg(Spot::SupervisorFile(notice), FileReg::Pending(0), taken);
        self.fabric.slot_store(slot, pass.identity);
    }
}

/// Aims a source as it is passed, where its virtual hart is: at the guest file where it is
/// resident, and else at its notice hart, by the number of the pass.
fn aim_first<T: Targets>(
    source: u32,
    stay: &Stay<Plan>,
    notice: u32,
    number: u32,
    identity: u32,
    targets: &mut T,
)
    requires harts { notice < (T.map targets.old).harts }
    requires number { number < PASSES }
    requires identity { identity ≤ IDENTITIES }
    requires place { (p : GuestPlace) → resident_at stay.now ≡ Some p
        → (p.hart < (T.map targets.old).harts) × (p.file ≤ GUEST_FILES) }
    ensures { T.aimed targets.old source
        (target_to notice number identity (resident_at stay.now)) targets.new }
{
    match stay.resident() {
        Some(place) => targets.aim(source, place.hart, place.file, identity),
        None => targets.aim(source, notice, 0, FIRST_PASS_IDENTITY + number),
    }
}
