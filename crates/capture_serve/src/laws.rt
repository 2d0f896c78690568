//! A law of connections. A call does nothing: its clause is the law.

ghost use Rattle.std.specs.Prelude.{◌≡◌, ℕ, false, List};
ghost use Rattle.desk_files.specs.Hosts.{Returned};
ghost use Rattle.capture_http.specs.declared.conn_end.ConnEnd.{ConnEnd};
ghost use Rattle.capture_recorder.specs.Recording.{Recording};
ghost use Rattle.capture_serve.specs.Connections.{IsConnection, IsWhole};
ghost use Rattle.capture_serve.specs.Service.{is_short};

/// A connection that was served without want of memory, and of which neither end failed, is whole.
pub fn connections_are_whole()
    ensures { (r : Recording) (session : ℕ) (sent : List ℕ) (end : ConnEnd) (returned : Returned)
        → IsConnection r session sent end returned → is_short end ≡ false → returned.failed ≡ false → IsWhole r session sent returned }
{}
