//! A copy of a store that is open, over any disk that copies itself.

ghost use Rattle.std.specs.Prelude.{◌≡◌, [], false};
ghost use Rattle.im_base_types.specs.declared.file_id.FileId.{FileId};
ghost use Rattle.im_calls.specs.Calls.{IsAnswered};
ghost use Rattle.im_calls.specs.Copies.{IsBegun, IsCopyEnded, IsPieceMade, TellsCopy, TellsPiece};

use crate::call::Call;
use crate::opened::Opened;
use crate::telling::{refuse, tell};
use im_base_disk::Disk;
use im_base_mirror_disk::{Mirrored, Piece};
use im_base_types::Fault;

// A piece has so many bytes at most.
const PIECE: usize = 65_536;

// The numbers of what is told.
const ABSENT: u32 = 2;

const END: u32 = 4;

const MORE: u32 = 11;

const DONE: u32 = 14;

impl<D: Disk, T: Disk + Drop> Opened<Mirrored<D, T>> {
    /// Begins a copy of the store into files without bytes, and answers that it is done. One that was under way is let go.
    pub fn begin_copy(&mut self, to: T, call: &mut Call)
        requires working { T.failed to ≡ false }
        requires empty { T.tells → (file : FileId) → T.seen to file ≡ [] }
        ensures begun { IsBegun D.Disk T.Disk ⟦<Mirrored<D, T> as Disk>⟧ to call.new self.old.store self.new.store }
        ensures question { IsAnswered call.old call.new }
    {
        self.store.begin_copy(to);
        tell(call, DONE, 0);
    }

    /// Copies the next bytes, and answers what that came to. The place of the answer's bytes is the room for them.
    pub fn copy_piece(&mut self, call: &mut Call)
        ensures made { IsPieceMade D.Disk T.Disk ⟦<Mirrored<D, T> as Disk>⟧ call.new self.old.store self.new.store }
        ensures question { IsAnswered call.old call.new }
    {
        let copied = self.store.copy_piece(&mut call.out[..PIECE]);
        tell_piece(call, copied);
    }

    /// Ends the copy, and answers whether there is one.
    pub fn end_copy(&mut self, call: &mut Call)
        ensures ended { IsCopyEnded D.Disk T.Disk ⟦<Mirrored<D, T> as Disk>⟧ call.new self.old.store self.new.store }
        ensures question { IsAnswered call.old call.new }
    {
        let ended = self.store.end_copy();
        tell_copy(call, &ended);
    }
}

fn tell_piece(call: &mut Call, copied: Result<Piece, Fault>)
    ensures told { TellsPiece call.new copied }
    ensures question { IsAnswered call.old call.new }
{
    match copied {
        Ok(Piece::More) => tell(call, MORE, 0),
        Ok(Piece::Last) => tell(call, END, 0),
        Ok(Piece::None) => tell(call, ABSENT, 0),
        Err(fault) => refuse(call, fault),
    }
}

fn tell_copy<T>(call: &mut Call, ended: &Result<Option<T>, Fault>)
    ensures told { TellsCopy call.new ended.now }
    ensures question { IsAnswered call.old call.new }
{
    match ended {
        Ok(Some(_)) => tell(call, DONE, 0),
        Ok(None) => tell(call, ABSENT, 0),
        Err(fault) => refuse(call, *fault),
    }
}
