/// How the serving of a connection ended, and how many replies were written whole.
#[derive(Clone, Copy)]
pub enum Served {
    /// The input ended between requests.
    Ended { requests: u32 },
    /// A request was the last one.
    Closed { requests: u32 },
    /// No request could be taken, and its end could not be told, which was answered.
    Wire { requests: u32 },
    /// The input ended in a request, which was not answered.
    Cut { requests: u32 },
    /// As many requests were answered as a connection may have.
    Enough { requests: u32 },
    /// The connection could not be read.
    ReadFault,
    /// The last reply could not be written whole.
    WriteFault,
    /// Memory ran out.
    Memory,
}
