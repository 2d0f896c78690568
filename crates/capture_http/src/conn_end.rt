/// How a connection ended.
#[derive(Clone, Copy, Debug, PartialEq, Eq)]
pub enum ConnEnd {
    /// A request closed it, or its input ended before a whole request.
    Ended,
    /// As many requests were answered as are answered on a connection.
    Spent,
    /// Its input failed.
    SourceFault,
    /// Its output failed.
    SinkFault,
    /// Want of memory.
    Memory,
}
