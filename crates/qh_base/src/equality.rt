ghost use Rattle.std.specs.Prelude.{◌≡◌, ℕ, true, List, ◌↔◌};
ghost use Rattle.qh_base.specs.declared.stream_id.StreamId.{StreamId as AStreamId};
ghost use Rattle.qh_base.specs.declared.shared.ResetToken.{ResetToken as AToken};
ghost use Rattle.qh_base.specs.declared.time.Moment.{Moment as AMoment};
ghost use Rattle.qh_base.specs.declared.time.Span.{Span as ASpan};
ghost use Rattle.qh_base.specs.declared.code.Code.{Code as ACode};

use crate::{Code, ConnectionId, Moment, ResetToken, Span, StreamId, VarInt};

/// `==` on these types is equality of their numbers or bytes. `Ord` and `Hash` agree with it by their own laws.
pub fn equal_means_same()
    ensures varint { (a b : ℕ) → (⟦<VarInt as PartialEq>⟧.eq a b ≡ true) ↔ (a ≡ b) }
    ensures stream_id { (a b : AStreamId) → (⟦<StreamId as PartialEq>⟧.eq a b ≡ true) ↔ (a ≡ b) }
    ensures connection_id { (a b : List ℕ) → (⟦<ConnectionId as PartialEq>⟧.eq a b ≡ true) ↔ (a ≡ b) }
    ensures reset_token { (a b : AToken) → (⟦<ResetToken as PartialEq>⟧.eq a b ≡ true) ↔ (a ≡ b) }
    ensures moment { (a b : AMoment) → (⟦<Moment as PartialEq>⟧.eq a b ≡ true) ↔ (a ≡ b) }
    ensures span { (a b : ASpan) → (⟦<Span as PartialEq>⟧.eq a b ≡ true) ↔ (a ≡ b) }
    ensures code { (a b : ACode) → (⟦<Code as PartialEq>⟧.eq a b ≡ true) ↔ (a ≡ b) }
{}
