/// How a command of the program ended, which is the program's exit status.
#[derive(Clone, Copy, Debug, PartialEq, Eq)]
pub enum Status {
    Done = 0,
    Refused = 1,
    Usage = 2,
    Mapping = 3,
    ReadFault = 4,
    KeeperFault = 5,
    WriteFault = 6,
    Memory = 7,
    Damaged = 8,
}
