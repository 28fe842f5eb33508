//! The model of a source and of a sink that every crate above is proved against.
ghost use Rattle.std.specs.Prelude.{◌≡◌, ◌<◌, ◌≤◌, ℕ, List, Option, length, take, drop, Some, IfOk, OnErr};
ghost use Rattle.std.specs.Option.{ForSome, option_map};
ghost use Rattle.disk_model.specs.Causes.{HasCause};
ghost use Rattle.disk_model.specs.Identity.{IsBound, IsBoundTo};
ghost use Rattle.stream_io.specs.Stream.{Gives, with_bytes};

use sector_disk::{Counted, Failed, Named};

/// An object that gives bytes in order, and is open from the start, as the standard input.
pub trait Source: Counted {
    /// The bytes that it has left. A source that does not tell them has none to name: then no clause speaks of them.
    ghost left: { Self → Option (List ℕ) };

    /// Reads the next bytes into the front of the buffer, and tells how many. It gives none to a buffer that is
    /// not empty only at its end. What stands behind them in the buffer is open, and all of it after a failure.
    ///
    /// # Errors
    ///
    /// - `Failed`: the source failed. It has the same bytes left.
    fn read(&mut self, buffer: &mut [u8]) -> Result<usize, Failed>
        ensures count { IfOk result (λ n. n ≤ length buffer.new) }
        ensures read { IfOk result (λ n. ForSome (left self.old) (Gives n buffer.new)) }
        ensures left { IfOk result (λ n. left self.new ≡ option_map (drop n) (left self.old)) }

        ensures cause { HasCause (Self.faults self.old) (Self.faults self.new) result }
        ensures err { OnErr result (left self.new ≡ left self.old) };
}

/// An object that gives the bytes of what it is bound to, as a file, in order.
pub trait NamedSource: Named {
    /// The bytes that it has left. A source that does not tell them has none to name: then no clause speaks of them.
    ghost left: { Self → Option (List ℕ) };

    /// What has this name: the bytes that the source will have left once it is bound to it, and those that it has
    /// left where it is bound to it.
    ghost named: { Self → List ℕ → Option (List ℕ) };

    /// Reads the next bytes into the front of the buffer, as `read` of a `Source` does.
    ///
    /// # Errors
    ///
    /// - `Failed`: the source failed. It has the same bytes left.
    fn read(&mut self, buffer: &mut [u8]) -> Result<usize, Failed>
        requires { IsBound (Self.binding self.old) }

        ensures count { IfOk result (λ n. n ≤ length buffer.new) }
        ensures read { IfOk result (λ n. ForSome (left self.old) (Gives n buffer.new)) }
        ensures left { IfOk result (λ n. left self.new ≡ option_map (drop n) (left self.old)) }

        ensures cause { HasCause (Self.faults self.old) (Self.faults self.new) result }
        ensures err { OnErr result (left self.new ≡ left self.old) }

        ensures binding { Self.binding self.new ≡ Self.binding self.old };

    /// What has the name that it is bound to, is what it has left.
    ghost named_if_bound: { (source : Self) (name : List ℕ) → IsBoundTo name (Self.binding source)
        → named source name ≡ left source };

    /// Where two states tell the same of a name, it has the same bytes, if the first tells them.
    ghost same_named: { (name : List ℕ) (a b : Self) (bytes : List ℕ) → Self.tells_same name a b
        → named a name ≡ Some bytes → named b name ≡ named a name };
}

/// An object that takes bytes in order.
pub trait Sink: Counted {
    /// The bytes that it has taken. A sink that does not tell them has none to name: then no clause speaks of them.
    ghost held: { Self → Option (List ℕ) };

    /// Takes bytes from the front of these, and tells how many: at least one, where there are any.
    ///
    /// # Errors
    ///
    /// - `Failed`: the sink failed. It has taken nothing.
    fn write(&mut self, bytes: &[u8]) -> Result<usize, Failed>
        ensures count { IfOk result (λ n. n ≤ length bytes.now) }
        ensures some { IfOk result (λ n. 0 < length bytes.now → 0 < n) }
        ensures written { IfOk result (λ n. held self.new
            ≡ option_map (with_bytes (take n bytes.now)) (held self.old)) }

        ensures cause { HasCause (Self.faults self.old) (Self.faults self.new) result }
        ensures err { OnErr result (held self.new ≡ held self.old) };
}
