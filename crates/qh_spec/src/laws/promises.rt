//! Laws of what an exchange promises.

ghost use Rattle.std.specs.Prelude.{◌≡◌, ◌*◌, ◌++◌, ℕ, List, [], ◌∷◌, slice_get, Some};
ghost use Rattle.qh_spec.specs.EventRows.{entry_on};
ghost use Rattle.qh_spec.specs.Headline.{ServedOnce, AnsweredOnce};
ghost use Rattle.qh_spec.specs.Link.{given_to};
ghost use Rattle.qh_spec.specs.Lists.{In};
ghost use Rattle.qh_spec.specs.Message.{PlainMessage};
ghost use Rattle.qh_spec.specs.MessageRows.{get_message, other_message, ok_message};
ghost use Rattle.qh_spec.specs.Record.{PlainEntry};
ghost use Rattle.qh_spec.specs.Same.{SameMessage};
ghost use Rattle.qh_spec.specs.WholeRows.{get_events, answered_events};
ghost use Rattle.qh_spec.specs.declared.link.Event.{Event};
ghost use Rattle.qh_spec.specs.declared.sides.Side.TheVariants.{Server};

/// Nothing new is served once, whatever passed. A server that was given nothing has served nothing, and no two new entries
/// are on one stream, nor is one of another request.
pub fn served()
    ensures nothing { (k : ℕ) (events : List Event) (requests : List PlainMessage) (entries : List PlainEntry) → ServedOnce k events requests entries entries }
    ensures of_nothing { (k : ℕ) (events : List Event) (requests : List PlainMessage) (before after : List PlainEntry) → given_to Server events ≡ []
        → ServedOnce k events requests before after → after ≡ before }
    ensures twice { (k : ℕ) (events : List Event) (requests : List PlainMessage) (before front mid rest : List PlainEntry) (d e : PlainEntry) → d.stream ≡ e.stream
        → ServedOnce k events requests before (before ++ (front ++ d ∷ (mid ++ e ∷ rest))) → ⊥ }
    ensures row { ServedOnce 8 get_events (get_message ∷ []) [] (entry_on 0 ∷ []) }
    ensures altered { (k : ℕ) (events : List Event) → ServedOnce k events (other_message ∷ []) [] (entry_on 0 ∷ []) → ⊥ }
{}

/// Each request was served on its stream, as asked, and its answer is what was recorded there. An answer that was left out,
/// wasn't given to the client or isn't the recorded one is none.
pub fn answered()
    ensures each { (k : ℕ) (events : List Event) (requests : List PlainMessage) (before after : List PlainEntry) (answers : List PlainMessage)
        (p : AnsweredOnce k events requests before after answers) (index : ℕ) (request : PlainMessage) → slice_get requests index ≡ Some request
        → (e : PlainEntry) × (answer : PlainMessage) × In e p.served.grew.fresh × (e.stream ≡ 4 * index) × SameMessage e.request request
        × (slice_get answers index ≡ Some answer) × SameMessage answer e.response }
    ensures recorded { (k : ℕ) (events : List Event) (requests : List PlainMessage) (before after : List PlainEntry) (answers : List PlainMessage)
        (p : AnsweredOnce k events requests before after answers) (index : ℕ) (answer : PlainMessage) (e : PlainEntry)
        → slice_get answers index ≡ Some answer → In e p.served.grew.fresh → e.stream ≡ 4 * index → SameMessage answer e.response }
    ensures row { AnsweredOnce 8 answered_events (get_message ∷ []) [] (entry_on 0 ∷ []) (ok_message ∷ []) }
    ensures left_out { (k : ℕ) (events : List Event) (before after : List PlainEntry) → AnsweredOnce k events (get_message ∷ []) before after [] → ⊥ }
    ensures made_up { (k : ℕ) (requests : List PlainMessage) (before after : List PlainEntry) (m : PlainMessage) → AnsweredOnce k get_events requests before after (m ∷ []) → ⊥ }
    ensures recorded_row { (events : List Event) (m : PlainMessage) → AnsweredOnce 8 events (get_message ∷ []) [] (entry_on 0 ∷ []) (m ∷ []) → SameMessage m ok_message }
{}
