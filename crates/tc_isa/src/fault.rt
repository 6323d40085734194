//! The faults that end a guest thread, and their numbers.

ghost use Rattle.std.specs.Prelude.{◌≡◌, ◌≤◌, ◌↔◌, Some, IsSome, IfSome};
ghost use Rattle.tc_isa.specs.Faults.{fault_number};
ghost use Rattle.tc_isa.specs.declared.fault.Fault.{Fault as GuestFault};

/// Why an instruction ended its thread. The thread's registers and its program counter stay as
/// they were before that instruction.
#[derive(Clone, Copy, Debug, PartialEq, Eq)]
pub enum Fault {
    /// The word decodes to no instruction.
    Illegal,
    /// The four bytes at the program counter do not lie wholly in one executable range.
    Fetch,
    /// The target of a jump or of a taken branch is no multiple of 4.
    JumpTarget,
    /// An aligned load lies in no memory of the thread.
    Load,
    /// An aligned store lies in no memory of the thread, or in a range that is read only.
    Store,
    /// The address of a load or a store is no multiple of its width.
    Misaligned,
    /// A load or a store lies in a guard whose lock the thread does not hold.
    Unguarded,
    /// The instruction is EBREAK.
    Break,
    /// The number in x17 is no guest call, or a SLEEP asks for more than 255.
    BadCall,
    /// A LOCK or an UNLOCK names no lock, or a LOCK comes from a thread that holds four locks.
    BadLock,
    /// A LOCK names a lock that is not greater than each lock that the thread holds.
    LockOrder,
    /// An UNLOCK names a lock that the thread does not hold.
    NotHeld,
}

impl Fault {
    /// The number that a report prints for the fault, from 1 to 12.
    pub fn number(self) -> u32
        ensures value { result ≡ fault_number self }
        ensures least { 1 ≤ result }
        ensures most { result ≤ 12 }
    {
        match self {
            Fault::Illegal => 1,
            Fault::Fetch => 2,
            Fault::JumpTarget => 3,
            Fault::Load => 4,
            Fault::Store => 5,
            Fault::Misaligned => 6,
            Fault::Unguarded => 7,
            Fault::Break => 8,
            Fault::BadCall => 9,
            Fault::BadLock => 10,
            Fault::LockOrder => 11,
            Fault::NotHeld => 12,
        }
    }

    /// The fault with a number, if there is one. Readers of reports use it.
    pub fn of_number(number: u32) -> Option<Fault>
        ensures some { IsSome result ↔ ((1 ≤ number) × (number ≤ 12)) }
        ensures value { IfSome result (λ fault. fault_number fault ≡ number) }

        // No two faults have one number.
        ensures only { (fault : GuestFault) → fault_number fault ≡ number → result ≡ Some fault }
    {
        match number {
            1 => Some(Fault::Illegal),
            2 => Some(Fault::Fetch),
            3 => Some(Fault::JumpTarget),
            4 => Some(Fault::Load),
            5 => Some(Fault::Store),
            6 => Some(Fault::Misaligned),
            7 => Some(Fault::Unguarded),
            8 => Some(Fault::Break),
            9 => Some(Fault::BadCall),
            10 => Some(Fault::BadLock),
            11 => Some(Fault::LockOrder),
            12 => Some(Fault::NotHeld),
            _ => None,
        }
    }
}
