/// A virtual hart that is there, with all by which it is reached: it is looked up once.
#[derive(Clone, Copy, Debug, PartialEq, Eq)]
pub struct Found {
    /// Its VM.
    pub vm: u32,
    /// Its number in the VM: that of its entry too.
    pub vcpu: u32,
    /// Its number over all VMs: that of its slot of memory.
    pub slot: u32,
    /// The hart whose supervisor file takes its notices.
    pub notice: u32,
}
