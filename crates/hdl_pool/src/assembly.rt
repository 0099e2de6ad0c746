//! One partial message.

ghost use Rattle.std.specs.Prelude.{◌≡◌, ◌<◌, ◌≤◌, None, Some, OnOk, OnErr, IfOk, is_some, option_map};
ghost use Rattle.hdl_frame.specs.Pieces.{piece_count};
ghost use Rattle.hdl_pool.specs.Partial.{IsPiece, is_of, nothing_of, payload_at, with_payload, whole};
ghost use Rattle.hdl_pool.specs.Taking.{after_piece, fate_of};
ghost use Rattle.hdl_pool.specs.Arrival.{piece_in};

use crate::joining::joined_with;
use crate::piece::{Arrival, MessageKey};
use crate::taken::Taken;
use hdl_limits::{MESSAGE_MAX, PIECE_LEN};
use std::alloc::{AllocError, Global};
use std::marker::Model;

/// A message of which some pieces came. Each payload is a copy of its own, so the memory is in proportion to what came.
#[derive(Drop)]
pub(crate) struct Assembly {
    key: MessageKey,
    message_len: u32,
    /// The payloads by number; `None` if a piece hasn't come yet.
    payloads: Vec<Option<Vec<u8>>>,
    /// How many haven't come yet.
    missing: usize,
}

impl Model for Assembly {
    ghost use Rattle.std.specs.Prelude.{◌≡◌, length};
    ghost use Rattle.hdl_frame.specs.Pieces.{piece_count};
    ghost use Rattle.hdl_pool.specs.Partial.{Partial};
    ghost use Rattle.hdl_pool.specs.Assembly.{lists, count_missing};

    ghost Value = { Partial };

    ghost view = { λ a. record { key = a.key; length = a.message_len; pieces = lists a.payloads.items } };

    ghost invariant = { λ a. (length a.payloads.items ≡ piece_count a.message_len) × (a.missing ≡ count_missing (lists a.payloads.items)) };
}

impl Assembly {
    /// A message of which nothing came yet, of `message_len` octets in all.
    pub(crate) fn new(
        alloc: Global,
        key: MessageKey,
        message_len: u32,
    ) -> Result<Assembly, AllocError>
        requires { message_len ≤ MESSAGE_MAX }
        ensures { IfOk result (λ a. a ≡ nothing_of key message_len) }
    {
        let count = message_len.div_ceil(PIECE_LEN) as usize;
        let mut payloads = Vec::with_capacity(alloc, count)?;
        for _ in 0..count {
            payloads.push(None)?;
        }
        Ok(Assembly {
            key,
            message_len,
            payloads,
            missing: count,
        })
    }

    pub(crate) fn is_of(&self, key: MessageKey) -> bool
        ensures { result ≡ is_of key self.now }
    {
        self.key.peer == key.peer
            && self.key.session == key.session
            && self.key.request == key.request
    }

    /// Takes a piece of this message. It is whole, and this stays as it was; or the piece is kept; or it is ignored. An
    /// `Err` changes nothing.
    pub(crate) fn take(&mut self, alloc: Global, piece: Arrival<'_>) -> Result<Taken, AllocError>
        requires { IsPiece (piece_in piece) }
        ensures fate { IfOk result (λ t. fate_of t ≡ (after_piece self.old (piece_in piece.entry)).0) }
        ensures grown { OnOk result (self.new ≡ (after_piece self.old (piece_in piece.entry)).1) }
        ensures unchanged { OnErr result (self.new ≡ self.old) }
    {
        if self.message_len != piece.message_len || self.has(piece.number) {
            return Ok(Taken::Ignored);
        }
        if let Some(message) = self.completed_by(alloc, piece.number, piece.payload)? {
            return Ok(Taken::Whole(message));
        }
        self.put(alloc, piece.number, piece.payload)?;
        Ok(Taken::Kept)
    }

    /// Whether the payload with this number came.
    fn has(&self, number: u32) -> bool
        requires { number < piece_count self.now.length }
        ensures { result ≡ is_some (payload_at self.now number) }
    {
        self.payloads[number as usize].is_some()
    }

    /// The message, if this payload is the only one that hasn't come. Memory is taken only then.
    fn completed_by(
        &self,
        alloc: Global,
        number: u32,
        payload: &[u8],
    ) -> Result<Option<Vec<u8>>, AllocError>
        requires number { number < piece_count self.now.length }
        requires new { payload_at self.now number ≡ None }
        ensures { IfOk result (λ message. option_map (λ v. v.items) message ≡ whole (with_payload self.now number payload.now)) }
    {
        if self.missing != 1 {
            return Ok(None);
        }
        joined_with(
            alloc,
            self.message_len as usize,
            &self.payloads,
            number as usize,
            payload,
        )
    }

    /// Keeps a copy of a payload that hasn't come yet. An `Err` changes nothing.
    fn put(&mut self, alloc: Global, number: u32, payload: &[u8]) -> Result<(), AllocError>
        requires number { number < piece_count self.old.length }
        requires new { payload_at self.old number ≡ None }
        ensures ok { OnOk result (self.new ≡ with_payload self.old number payload.now) }
        ensures unchanged { OnErr result (self.new ≡ self.old) }
    {
        let copy = Vec::from_slice(alloc, payload)?;
        self.payloads[number as usize] = Some(copy);
        self.missing -= 1;
        Ok(())
    }
}
