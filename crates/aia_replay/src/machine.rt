ghost use Rattle.std.specs.Prelude.{◌≡◌, ◌∷◌, ℕ, ◌≤◌, ◌-◌, ◌^◌, min, [], true, None, Some, is_some, IfOk, OnErr, IfSome, IsFalse};
ghost use Rattle.aia_csr.specs.CsrAccess.{IsInTable};
ghost use Rattle.aia_file.specs.InterruptFile.{is_greatest_identity};
ghost use Rattle.aia_model.specs.Forms.{IsListed};
ghost use Rattle.aia_model.specs.Event.{History};
ghost use Rattle.aia_model.specs.Event.Event.{Accepted};
ghost use Rattle.aia_model.specs.Act.{Past, domain_at};
ghost use Rattle.aia_model.specs.Notice.{notices_sent};
ghost use Rattle.aia_model.specs.Act.Act.{Made};
ghost use Rattle.aia_model.specs.Refusal.{is_machine_size};
ghost use Rattle.aia_hyp_values.specs.HostFiles.{IsHost, csr_line};
ghost use Rattle.aia_hyp_values.specs.Stands.{answer_by};
ghost use Rattle.aia_replay.specs.Stands.{MachineHolds, MachineStands, EngineStandsForSome, CanDeliverSome, MachineTakes, MachineServes, SendsNone, NoneWaits, Delivers};
ghost use Rattle.aia_aplic_values.specs.Aplic.{AplicStands};
ghost use Rattle.aia_model.specs.SourceOf.{is_source};
ghost use Rattle.aia_model.specs.Passes.{has_passes};
ghost use Rattle.aia_model.specs.Passable.{redirects_by};
ghost use Rattle.aia_regs.specs.declared.limits.TheConstants.{SOURCES};

use crate::wires::Wires;
use aia_aplic::Aplic;
use aia_entry::decode;
use aia_hyp::Core;
use aia_model::{Answer, DomainName, Line, Part, Refusal, Want};
use aia_regs::address_map::{REGION, ROOT_DOMAIN};
use aia_regs::limits::{GUEST_FILES, HARTS, IDENTITIES, SOURCES};
use aia_regs::{Csr, DomainReg, Level, Op, domain_reg};
use aia_source::{domaincfg_kept, is_by_msi};
use std::alloc::{AllocError, Global};

/// A machine: the hypervisor's core and the APLIC, to one of which each line is handed.
#[derive(Drop)]
pub struct Machine {
    core: Core,
    wires: Wires,
}

impl Machine {
    /// Makes the machine of these numbers: 1 to `HARTS` harts, up to `GUEST_FILES` guest files a
    /// hart, identities 1 to `n` (63, 127, 255, 511, 1023 or 2047) and 1 to `SOURCES` wired
    /// sources. `None` exactly where a number is none of these; `Err` is want of memory.
    pub fn of_size(
        alloc: Global,
        harts: u64,
        guests: u64,
        n: u64,
        sources: u64,
    ) -> Result<Option<Machine>, AllocError>
        ensures size { IfOk result (λ made. is_some made ≡ is_machine_size harts guests n sources) }
        ensures new { IfOk result (λ made. IfSome made (λ m. MachineHolds m
            (Accepted (Line.Machine harts guests n sources) ∷ []) (Made harts sources ∷ []))) }
        ensures err { OnErr result (is_machine_size harts guests n sources ≡ true) }
    {
        if !is_machine_size(harts, guests, n, sources) {
            return Ok(None);
        }
        let core = Core::new(alloc, harts as u32, guests as u32, n as u32)?;
        let aplic = Aplic::new(alloc, harts as u32, sources as u32)?;
        let wires = Wires { aplic };
        Ok(Some(Machine { core, wires }))
    }

    /// Answers a line after the one that made this machine. All MSIs that wait then are sent and
    /// land before it returns.
    #[inline(always)]
    pub fn line(&mut self, line: &Line) -> Answer
        requires listed { IsListed line.now }
        requires stands { EngineStandsForSome self.old }
        ensures { MachineServes self.old self.new line.now result }
    {
        let answer = self.serve(line);
        self.deliver_after(line);
        answer
    }

    /// Tells how many notices were sent; the count stays at `2^64 - 1`.
    pub fn notices(&self) -> u64
        ensures { (h : History) (past : Past) → MachineHolds self.now h past
            → result ≡ min (notices_sent h) (2 ^ 64 - 1) }
    {
        self.core.notices()
    }

    /// Answers it, and does what it does itself.
    #[inline(always)]
    fn serve(&mut self, line: &Line) -> Answer
        requires listed { IsListed line.now }
        requires stands { EngineStandsForSome self.old }
        ensures { MachineTakes self.old self.new line.now result }
    {
        match *line {
            Line::Machine { .. } => Answer::Again,
            Line::Vm { vcpus, mask, hart } => self.vm(vcpus, mask, hart),
            Line::Wire { source, level } => self.wire(source, level),
            Line::Load { addr } => self.load(addr),
            Line::Store { addr, value } => self.store(addr, value),
            Line::Msi { vm, addr, value } => self.msi(vm, addr, value),
            Line::Send { vm, addr, value } => self.send(vm, addr, value),
            Line::Land { vm, k } => self.land(vm, k),
            Line::Refetch { vm, vcpu } => self.refetch(vm, vcpu),
            Line::Pass {
                source,
                vm,
                vcpu,
                identity,
            } => self.pass(source, vm, vcpu, identity),
            Line::MachineCsr { hart, csr, op } => self.access(Level::Machine, hart, csr, op),
            Line::HostCsr { hart, csr, op } => self.access(Level::Host, hart, csr, op),
            Line::Hgeip { hart } => self.hgeip(hart),
            Line::GuestCsr { vm, vcpu, csr, op } => self.guest(vm, vcpu, csr, op),
            Line::Ipi {
                vm,
                vcpu,
                to,
                value,
            } => self.ipi(vm, vcpu, to, value),
            Line::Move { vm, vcpu, want } => self.whole_move(vm, vcpu, want),
            Line::Begin { vm, vcpu, want } => self.begin_move(vm, vcpu, want),
            Line::Step { vm, vcpu } => self.step(vm, vcpu),
            Line::Enter { vm, vcpu } => self.enter(vm, vcpu),
            Line::Exit { vm, vcpu } => self.exit(vm, vcpu),
            Line::Save { vm, vcpu, k } => self.save(vm, vcpu, k),
            Line::LoadPart { vm, vcpu, part } => self.load_part(vm, vcpu, &part),
            Line::Inject {
                vm,
                vcpu,
                bit,
                level,
            } => self.inject(vm, vcpu, bit, level),
            Line::Hvictl { vm, vcpu, value } => self.hvictl(vm, vcpu, value),
            Line::Hviprio { vm, vcpu, value } => self.hviprio(vm, vcpu, value),
            Line::Pins { hart } => self.pins(hart),
            Line::Entry { w0, w1 } => self.entry(w0, w1),
        }
    }

    /// Sends all MSIs that wait after a line, each of which the core hears.
    #[inline(always)]
    fn deliver_after(&mut self, line: &Line)
        requires can { CanDeliverSome self.old }
        requires none { SendsNone line.now → NoneWaits self.old }
        ensures { Delivers self.old self.new }
    {
        if may_send(line) {
            self.deliver();
        }
    }

    /// Sends all MSIs that wait, each of which the core hears.
    #[inline(always)]
    fn deliver(&mut self)
        requires { CanDeliverSome self.old }
        ensures { Delivers self.old self.new }
    {
        if self.wires.aplic.has_msi() {
            self.deliver_waiting();
        }
    }

    /// Sends the MSIs that wait, each of which the core hears.
    #[inline(never)]
    fn deliver_waiting(&mut self)
        requires { CanDeliverSome self.old }
        ensures { Delivers self.old self.new }
    {
        while let Some(msi) = self.wires.aplic.next_msi() {
            self.core.deliver(msi);
        }
    }

    /// Passes a wired source to a virtual hart, by the core; `Range` where the source isn't there.
    #[inline(always)]
    fn pass(&mut self, source: u64, vm: u64, vcpu: u64, identity: u64) -> Answer
        requires { EngineStandsForSome self.old }
        ensures { MachineTakes self.old self.new (Line.Pass source vm vcpu identity) result }
    {
        if !self.has_source(source) {
            return Answer::Refused(Refusal::Range);
        }
        okay(
            self.core
                .pass(source as u32, vm, vcpu, identity, &mut self.wires),
        )
    }

    /// Moves a virtual hart, by all steps of its move.
    #[inline(always)]
    fn whole_move(&mut self, vm: u64, vcpu: u64, want: Want) -> Answer
        requires { EngineStandsForSome self.old }
        ensures { MachineTakes self.old self.new (Line.Move vm vcpu want) result }
    {
        okay(self.core.whole(vm, vcpu, want, &mut self.wires))
    }

    /// Does the next step of the move of a virtual hart.
    #[inline(always)]
    fn step(&mut self, vm: u64, vcpu: u64) -> Answer
        requires { EngineStandsForSome self.old }
        ensures { MachineTakes self.old self.new (Line.Step vm vcpu) result }
    {
        match self.core.step(vm, vcpu, &mut self.wires) {
            Ok(true) => Answer::Done,
            Ok(false) => Answer::Moving,
            Err(word) => Answer::Refused(word),
        }
    }

    /// Tells what an entry of an MSI page table says.
    #[inline(always)]
    fn entry(&self, w0: u64, w1: u64) -> Answer
        ensures { MachineTakes self.now self.now (Line.Entry w0 w1) result }
    {
        Answer::Entry(decode(w0, w1))
    }

    /// Gives the wire of a source a level; `Range` where the source isn't there.
    #[inline(always)]
    fn wire(&mut self, source: u64, level: bool) -> Answer
        ensures { MachineTakes self.old self.new (Line.Wire source level) result }
    {
        if !self.has_source(source) {
            return Answer::Refused(Refusal::Range);
        }
        self.wires.aplic.wire(source as u32, level);
        Answer::Okay
    }

    /// Tells whether a wired source is there.
    fn has_source(&self, source: u64) -> bool
        ensures there { (past : Past) → AplicStands self.now.wires.aplic past
            → result ≡ is_source past source }
        ensures few { result ≡ true → source ≤ SOURCES }
    {
        (1..=u64::from(self.wires.aplic.sources())).contains(&source)
    }

    /// Loads from a register of the APLIC, or else by the core.
    #[inline(always)]
    fn load(&mut self, addr: u64) -> Answer
        ensures { MachineTakes self.old self.new (Line.Load addr) result }
    {
        match domain_at(addr) {
            None => {
                let given = self.core.load(addr);
                given.map_or_else(Answer::Refused, Answer::Narrow)
            }
            Some(name) => self.load_register(name, addr),
        }
    }

    /// Loads from a register of a domain in whose control region the address lies; `Fault` where it
    /// is no multiple of 4.
    #[inline(always)]
    fn load_register(&mut self, name: DomainName, addr: u64) -> Answer
        requires { domain_at addr ≡ Some name }
        ensures { MachineTakes self.old self.new (Line.Load addr) result }
    {
        if addr % 4 != 0 {
            return Answer::Refused(Refusal::Fault);
        }
        Answer::Narrow(self.wires.aplic.load(name, (addr % REGION) as u32))
    }

    /// Stores to a register of the APLIC, or else by the core.
    #[inline(always)]
    fn store(&mut self, addr: u64, value: u32) -> Answer
        requires { EngineStandsForSome self.old }
        ensures { MachineTakes self.old self.new (Line.Store addr value) result }
    {
        match domain_at(addr) {
            None => okay(self.core.store(addr, value)),
            Some(name) => okay(self.store_register(name, addr, value)),
        }
    }

    /// Stores to a register of a domain in whose control region the address lies; `Fault` where it
    /// is no multiple of 4, `Guarded` where the store would redirect the MSIs of passed sources.
    fn store_register(&mut self, name: DomainName, addr: u64, value: u32) -> Result<(), Refusal>
        requires named { domain_at addr ≡ Some name }
        requires stands { EngineStandsForSome self.old }
        ensures { MachineTakes self.old self.new (Line.Store addr value)
            (answer_by (λ _. Answer.Okay) result) }
    {
        if addr % 4 != 0 {
            return Err(Refusal::Fault);
        }
        let offset = (addr % REGION) as u32;
        if self.core.passes() > 0 && self.redirects(name, domain_reg(offset), value) {
            return Err(Refusal::Guarded);
        }
        self.wires.aplic.store(name, offset, value);
        Ok(())
    }

    /// Tells whether a store to a register of a domain would redirect the MSIs of passed sources,
    /// while there are some.
    fn redirects(&self, name: DomainName, register: DomainReg, value: u32) -> bool
        ensures { (h : History) → MachineStands self.now h → has_passes h ≡ true
            → result ≡ redirects_by h (Some name) register value }
    {
        match name {
            DomainName::Root => match register {
                DomainReg::MMsiAddrCfgH | DomainReg::SMsiAddrCfg | DomainReg::SMsiAddrCfgH => true,
                DomainReg::SourceCfg(source) => self.core.passed(source),
                _ => false,
            },
            DomainName::Child => match register {
                DomainReg::SourceCfg(source) => self.core.passed(source),
                DomainReg::Target(source) => self.core.passed(source),
                DomainReg::DomainCfg => !is_by_msi(domaincfg_kept(value)),
                _ => false,
            },
        }
    }

    /// Tells the four signals of a hart; `Range` where the hart isn't there.
    #[inline(always)]
    fn pins(&self, hart: u64) -> Answer
        ensures { MachineTakes self.now self.now (Line.Pins hart) result }
    {
        match self.core.signals(hart) {
            Ok((machine, supervisor)) => Answer::Pins(
                self.wires.aplic.pin(DomainName::Root, hart as u32),
                self.wires.aplic.pin(DomainName::Child, hart as u32),
                machine,
                supervisor,
            ),
            Err(word) => Answer::Refused(word),
        }
    }
}

// Lines of only the core, which leave the APLIC as it is.
#[tactic(auto, using(crate::proofs::MachineLemmas::core_line))]
impl Machine {
    /// Makes the next VM, by the core.
    #[inline(always)]
    fn vm(&mut self, vcpus: u64, mask: u64, hart: u64) -> Answer
        ensures { MachineTakes self.old self.new (Line.Vm vcpus mask hart) result }
    {
        okay(self.core.vm(vcpus, mask, hart))
    }

    /// Takes a store of a device of a VM, by the core.
    #[inline(always)]
    fn msi(&mut self, vm: u64, addr: u64, value: u32) -> Answer
        ensures { MachineTakes self.old self.new (Line.Msi vm addr value) result }
    {
        okay(self.core.msi(vm, addr, value))
    }

    /// Sends a store of a device of a VM, by the core.
    #[inline(always)]
    fn send(&mut self, vm: u64, addr: u64, value: u32) -> Answer
        ensures { MachineTakes self.old self.new (Line.Send vm addr value) result }
    {
        okay(self.core.send(vm, addr, value))
    }

    /// Lands a store in flight, by the core.
    #[inline(always)]
    fn land(&mut self, vm: u64, k: u64) -> Answer
        ensures { MachineTakes self.old self.new (Line.Land vm k) result }
    {
        okay(self.core.land(vm, k))
    }

    /// Has the entry of a virtual hart read again, by the core.
    #[inline(always)]
    fn refetch(&mut self, vm: u64, vcpu: u64) -> Answer
        ensures { MachineTakes self.old self.new (Line.Refetch vm vcpu) result }
    {
        okay(self.core.refetch(vm, vcpu))
    }

    /// Tells which guest files of a hart signal.
    #[inline(always)]
    fn hgeip(&self, hart: u64) -> Answer
        ensures { MachineTakes self.now self.now (Line.Hgeip hart) result }
    {
        wide(self.core.hgeip(hart))
    }

    /// Does a CSR instruction of a virtual hart.
    #[inline(always)]
    fn guest(&mut self, vm: u64, vcpu: u64, csr: Csr, op: Op) -> Answer
        ensures { MachineTakes self.old self.new (Line.GuestCsr vm vcpu csr op) result }
    {
        wide(self.core.guest(vm, vcpu, csr, op))
    }

    /// Takes a store of a virtual hart for one of its VM, by the core.
    #[inline(always)]
    fn ipi(&mut self, vm: u64, vcpu: u64, to: u64, value: u32) -> Answer
        ensures { MachineTakes self.old self.new (Line.Ipi vm vcpu to value) result }
    {
        okay(self.core.ipi(vm, vcpu, to, value))
    }

    /// Begins to move a virtual hart.
    #[inline(always)]
    fn begin_move(&mut self, vm: u64, vcpu: u64, want: Want) -> Answer
        ensures { MachineTakes self.old self.new (Line.Begin vm vcpu want) result }
    {
        okay(self.core.begin(vm, vcpu, want))
    }

    /// Has a virtual hart run from memory, by the core.
    #[inline(always)]
    fn enter(&mut self, vm: u64, vcpu: u64) -> Answer
        ensures { MachineTakes self.old self.new (Line.Enter vm vcpu) result }
    {
        okay(self.core.enter(vm, vcpu))
    }

    /// Has a virtual hart cease to run from memory, by the core.
    #[inline(always)]
    fn exit(&mut self, vm: u64, vcpu: u64) -> Answer
        ensures { MachineTakes self.old self.new (Line.Exit vm vcpu) result }
    {
        okay(self.core.exit(vm, vcpu))
    }

    /// Gives a part of the image of a virtual hart, by the core.
    #[inline(always)]
    fn save(&self, vm: u64, vcpu: u64, k: u64) -> Answer
        ensures { MachineTakes self.now self.now (Line.Save vm vcpu k) result }
    {
        part(self.core.save(vm, vcpu, k))
    }

    /// Loads a part of an image into a virtual hart, by the core.
    #[inline(always)]
    fn load_part(&mut self, vm: u64, vcpu: u64, part: &Part) -> Answer
        ensures { MachineTakes self.old self.new (Line.LoadPart vm vcpu part.now) result }
    {
        okay(self.core.load_part(vm, vcpu, part))
    }

    /// Gives a major interrupt of a virtual hart a level in `hvip`, by the core.
    #[inline(always)]
    fn inject(&mut self, vm: u64, vcpu: u64, bit: u64, level: bool) -> Answer
        ensures { MachineTakes self.old self.new (Line.Inject vm vcpu bit level) result }
    {
        okay(self.core.inject(vm, vcpu, bit, level))
    }

    /// Writes `hvictl` of a virtual hart, by the core.
    #[inline(always)]
    fn hvictl(&mut self, vm: u64, vcpu: u64, value: u64) -> Answer
        ensures { MachineTakes self.old self.new (Line.Hvictl vm vcpu value) result }
    {
        okay(self.core.hvictl(vm, vcpu, value))
    }

    /// Writes `hviprio1` of a virtual hart, by the core.
    #[inline(always)]
    fn hviprio(&mut self, vm: u64, vcpu: u64, value: u64) -> Answer
        ensures { MachineTakes self.old self.new (Line.Hviprio vm vcpu value) result }
    {
        okay(self.core.hviprio(vm, vcpu, value))
    }

    /// Does a CSR instruction of a hart at a level of the host.
    #[inline(always)]
    fn access(&mut self, level: Level, hart: u64, csr: Csr, op: Op) -> Answer
        requires listed { IsInTable level csr }
        requires host { IsHost level }
        ensures { MachineTakes self.old self.new (csr_line level hart csr op) result }
    {
        wide(self.core.host(level, hart, csr, op))
    }
}

/// Answers a call of the core that gives nothing.
fn okay(given: Result<(), Refusal>) -> Answer
    ensures { result ≡ answer_by (λ _. Answer.Okay) given }
{
    match given {
        Ok(()) => Answer::Okay,
        Err(word) => Answer::Refused(word),
    }
}

/// Answers a call of the core that gives a part of an image.
fn part(given: Result<Part, Refusal>) -> Answer
    ensures { result ≡ answer_by Answer.Part given }
{
    match given {
        Ok(part) => Answer::Part(part),
        Err(word) => Answer::Refused(word),
    }
}

/// Answers a call of the core that gives 64 bits.
fn wide(given: Result<u64, Refusal>) -> Answer
    ensures { result ≡ answer_by Answer.Wide given }
{
    given.map_or_else(Answer::Refused, Answer::Wide)
}

/// Tells whether an MSI may wait after a line. It says so of rare lines too, after which none does.
#[inline(always)]
#[tactic(auto, using(crate::proofs::WaitingLemmas::load_sends_none, crate::proofs::WaitingLemmas::silent_sends_none))]
fn may_send(line: &Line) -> bool
    ensures { IsFalse result → SendsNone line.now }
{
    match *line {
        Line::Store { addr, .. } => domain_at(addr).is_some(),
        Line::Load { .. }
        | Line::Msi { .. }
        | Line::MachineCsr { .. }
        | Line::HostCsr { .. }
        | Line::GuestCsr { .. } => false,
        _ => true,
    }
}

/// Gives the domain in whose control region the address lies, `None` in none.
#[inline(always)]
fn domain_at(addr: u64) -> Option<DomainName>
    ensures { result ≡ domain_at addr }
{
    if !(ROOT_DOMAIN..ROOT_DOMAIN + 2 * REGION).contains(&addr) {
        return None;
    }
    Some(if addr < ROOT_DOMAIN + REGION {
        DomainName::Root
    } else {
        DomainName::Child
    })
}

/// Tells whether a machine may have these numbers.
fn is_machine_size(harts: u64, guests: u64, n: u64, sources: u64) -> bool
    ensures { result ≡ is_machine_size harts guests n sources }
{
    (1..=u64::from(HARTS)).contains(&harts)
        && guests <= u64::from(GUEST_FILES)
        && is_greatest_identity(n)
        && (1..=u64::from(SOURCES)).contains(&sources)
}

/// Tells whether a file may have the identities 1 to `n`.
fn is_greatest_identity(n: u64) -> bool
    ensures { result ≡ is_greatest_identity n }
{
    matches!(n, 63 | 127 | 255 | 511 | 1023) || n == u64::from(IDENTITIES)
}
