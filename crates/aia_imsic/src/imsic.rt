ghost use Rattle.std.specs.Prelude.{◌≡◌, ◌≢◌, ℕ, ◌+◌, ◌*◌, ◌<◌, ◌≤◌, ◌&&◌, length, All, IsTrue, IfOk};
ghost use Rattle.std.specs.Borrow.{sem};
ghost use Rattle.std.specs.Int.{is_in_range};
ghost use Rattle.aia_word.specs.Sets.{has_bit};
ghost use Rattle.aia_file.specs.InterruptFile.{is_greatest_identity, SameFile, empty_file, signals, landed};
ghost use Rattle.aia_file.specs.FileState.{FileState, shown};
ghost use Rattle.aia_file.specs.Map.{spot_at};
ghost use Rattle.aia_file.specs.Imsic.{IsThere, place_of, file_at, with_file, AreEmpty};
ghost use Rattle.aia_imsic.specs.Lends.{LendsFile};

use aia_file::{File, Spot};
use aia_regs::address_map::{HART_STRIDE, MACHINE_FILES, PAGE, SUPERVISOR_FILES};
use aia_regs::limits::{GUEST_FILES, HARTS};
use std::alloc::{AllocError, Global};
use std::marker::Model;

/// The interrupt files of all harts of a machine: of each hart the machine-level file, the
/// supervisor file and the guest files.
///
/// AIA 1.0, IMSIC.
#[derive(Drop)]
pub struct Imsic {
    harts: u32,
    guests: u32,
    files: Vec<File>,
}

impl Model for Imsic {
    ghost use Rattle.std.specs.Prelude.{◌≡◌, ◌+◌, ◌*◌, ◌≤◌, length};
    ghost use Rattle.aia_regs.specs.declared.limits.TheConstants.{HARTS, GUEST_FILES};
    ghost use Rattle.aia_file.specs.Imsic.{ImsicState};

    ghost Value = { ImsicState };

    ghost view = { λ i. record { harts = i.harts; guests = i.guests; files = i.files.items } };

    ghost invariant = { λ i. (i.harts ≤ HARTS) × (i.guests ≤ GUEST_FILES)
        × (length i.files.items ≡ i.harts * (i.guests + 2)) };
}

impl Imsic {
    /// Makes the empty files of `harts` harts, 1 to `HARTS`, each with `guests` guest files, up to
    /// `GUEST_FILES`;
    /// every file has the identities 1 to `n`, which is 63, 127, 255, 511, 1023 or 2047. `Err`:
    /// there is no memory for them.
    pub fn new(alloc: Global, harts: u32, guests: u32, n: u32) -> Result<Imsic, AllocError>
        requires some { 1 ≤ harts }
        requires few { harts ≤ HARTS }
        requires guests { guests ≤ GUEST_FILES }
        requires width { IsTrue (is_greatest_identity n) }
        ensures size { IfOk result (λ i. (i.harts ≡ harts) × (i.guests ≡ guests)
            × (length i.files ≡ harts * (guests + 2))) }
        ensures empty { IfOk result (λ i. AreEmpty i n) }
        ensures width { IfOk result (λ i. All (λ (f : FileState). f.n ≡ n) i.files) }
    {
        let files = empty_files(alloc, harts * (guests + 2), n)?;
        Ok(Imsic {
            harts,
            guests,
            files,
        })
    }

    /// Tells how many harts there are, 1 to `HARTS`.
    pub fn harts(&self) -> u32
        ensures value { result ≡ self.now.harts }
        ensures few { result ≤ HARTS }
    {
        self.harts
    }

    /// Tells how many guest files each hart has, 0 to `GUEST_FILES`.
    pub fn guests(&self) -> u32
        ensures value { result ≡ self.now.guests }
        ensures few { result ≤ GUEST_FILES }
    {
        self.guests
    }

    /// Finds the file in whose page `addr` lies; `Nowhere` exactly where it lies in none.
    ///
    /// AIA 1.0, IMSIC, "Memory region for an interrupt file": each file is a page. Profile: where
    /// the pages lie.
    #[inline(always)]
    pub fn locate(&self, addr: u64) -> Spot
        ensures spot { result ≡ spot_at self.now.harts self.now.guests addr }
        ensures there { result ≢ Spot.Nowhere → IsThere self.now result }
        ensures few { (self.now.harts ≤ HARTS) × (self.now.guests ≤ GUEST_FILES) }
    {
        let harts = u64::from(self.harts);
        if addr < MACHINE_FILES {
            return Spot::Nowhere;
        }
        if addr < SUPERVISOR_FILES {
            let hart = (addr - MACHINE_FILES) / PAGE;
            if hart >= harts {
                return Spot::Nowhere;
            }
            return Spot::MachineFile(hart as u32);
        }
        let hart = (addr - SUPERVISOR_FILES) / HART_STRIDE;
        if hart >= harts {
            return Spot::Nowhere;
        }
        let file = (addr - SUPERVISOR_FILES) % HART_STRIDE / PAGE;
        if file == 0 {
            return Spot::SupervisorFile(hart as u32);
        }
        if file > u64::from(self.guests) {
            return Spot::Nowhere;
        }
        Spot::GuestFile(hart as u32, file as u32)
    }

    /// Gives the file at a place that is there.
    #[inline(always)]
    pub fn file(&self, spot: Spot) -> &File
        requires { IsThere self.now spot }
        ensures { result.now ≡ file_at self.now spot }
    {
        let place = self.place(spot);
        &self.files[place]
    }

    /// Lends the file at a place that is there; what is made of it is made only of that file.
    #[inline(always)]
    pub fn file_mut(&mut self, spot: Spot) -> &mut File
        requires { IsThere self.old spot }
        ensures* writes_back { sem 𝓛 (LendsFile self.entry spot result) }
        ensures value { result.now ≡ file_at self.old spot }
        ensures within { place_of self.old spot < length self.old.files }
    {
        let place = self.place(spot);
        &mut self.files[place]
    }

    /// Takes a 32-bit store of `value` at `offset` of the page of the file at `spot`, which is
    /// there; every other file stays.
    ///
    /// AIA 1.0, IMSIC, "Memory region for an interrupt file".
    #[inline(always)]
    pub fn store(&mut self, spot: Spot, offset: u32, value: u32)
        requires { IsThere self.old spot }
        ensures lands { SameFile (shown (file_at self.new spot))
            (landed offset value (shown (file_at self.old spot))) }
        ensures others { self.new ≡ with_file self.old spot (file_at self.new spot) }
    {
        self.file_mut(spot).land(offset, value);
    }

    /// Gives what hgeip of a hart that is there reads: bit j, from 1 to the number of guest files,
    /// is whether guest file j signals; the others are 0.
    ///
    /// The hypervisor extension 1.0; AIA 1.0, IMSIC.
    pub fn hgeip(&self, hart: u32) -> u64
        requires { hart < self.now.harts }
        ensures { (j : ℕ) → has_bit result j
            ≡ (is_in_range 1 self.now.guests j
            && signals (shown (file_at self.now (Spot.GuestFile hart j)))) }
    {
        let mut bits = 0;
        for file in 1..self.guests + 1 {
            if self.file(Spot::GuestFile(hart, file)).signal() {
                bits |= 1 << file;
            }
        }
        bits
    }

    /// Tells where the file is kept.
    #[inline(always)]
    fn place(&self, spot: Spot) -> usize
        requires { IsThere self.now spot }
        ensures value { result ≡ place_of self.now spot }
        ensures within { result < length self.now.files }
    {
        let size = self.guests + 2;
        let place = match spot {
            Spot::MachineFile(hart) => hart * size,
            Spot::SupervisorFile(hart) => hart * size + 1,
            Spot::GuestFile(hart, file) => hart * size + 1 + file,
            Spot::Nowhere => 0,
        };
        place as usize
    }
}

/// Makes `count` empty files, each with the identities 1 to `n`.
fn empty_files(alloc: Global, count: u32, n: u32) -> Result<Vec<File>, AllocError>
    requires { IsTrue (is_greatest_identity n) }
    ensures length { IfOk result (λ files. length files.items ≡ count) }
    ensures empty { IfOk result (λ files.
        All (λ file. SameFile (shown file) (empty_file n)) files.items) }
    ensures width { IfOk result (λ files. All (λ (f : FileState). f.n ≡ n) files.items) }
{
    let mut files = Vec::new(alloc);
    for _place in 0..count {
        files.push(File::new(alloc, n)?)?;
    }
    Ok(files)
}
