ghost use Rattle.std.specs.Prelude.{◌≡◌, ◌≤◌, ◌++◌, ℕ, Bool, List, None, Some, is_some, false, true};
ghost use Rattle.qh_base.specs.declared.path.FourTuple.{FourTuple as APath};
ghost use Rattle.qh_base.specs.declared.stream_id.StreamId.{StreamId as AnId};
ghost use Rattle.qh_base.specs.declared.time.Moment.{Moment as AMoment};
ghost use Rattle.qh_book.specs.Book.{Book};
ghost use Rattle.qh_book.specs.Forms.{IfTold, MayReply};
ghost use Rattle.qh_book.specs.History.{IsLegal, IsStep, PlainEntry, Replays};
ghost use Rattle.qh_book.specs.Interests.{interest_of, is_same, waits, with_interest};
ghost use Rattle.qh_book.specs.Promises.{HasReply, IsClosed, IsRegistered, MayStay};
ghost use Rattle.qh_book.specs.Rows.{row_book, row_opens, row_reads, row_resets, row_unknown};
ghost use Rattle.qh_book.specs.Step.{Steps, StepsWith};
ghost use Rattle.qh_book.specs.declared.call.Call.{Call as ACall};
ghost use Rattle.qh_book.specs.declared.call.Call.TheVariants as call;
ghost use Rattle.qh_book.specs.declared.interest.Interest.{Interest as AnInterest};
ghost use Rattle.qh_book.specs.declared.interest.Interest.TheVariants as waiting;
ghost use Rattle.qh_book.specs.declared.item.Item.{Item as AnItem};
ghost use Rattle.qh_book.specs.declared.reply.Reply.{Reply as AReply};
ghost use Rattle.qh_book.specs.declared.reply.Reply.TheVariants as reply;

/// In each book each call has an allowed reply. There is some value that the book doesn't have, for the getters that tell one.
pub fn each_call_has_a_reply<T>()
    ensures { (told : T) (b : Book) (c : ACall) → HasReply T b c }
{}

/// An entry leaves at most one book (`step`), and so does a history (`history`). Two that step a book one after another are one (`joined`), and each
/// prefix of a history leaves a book that the rest steps (`prefix`).
pub fn at_most_one_book<T>()
    ensures step { (b m n : Book) (e : PlainEntry T) → IsStep b e m → IsStep b e n → m ≡ n }
    ensures history { (b m n : Book) (es : List (PlainEntry T)) → Replays b es m → Replays b es n → m ≡ n }
    ensures joined { (b m n : Book) (es fs : List (PlainEntry T)) → Replays b es m → Replays m fs n → Replays b (es ++ fs) n }
    ensures prefix { (b n : Book) (es fs : List (PlainEntry T)) → Replays b (es ++ fs) n → (m : Book) × Replays b es m × Replays m fs n }
{}

/// An allowed reply has a form that the call may have. `is_of` says which values may be told to a call; a value that is told is to be one of them.
pub fn replies_fit<T>()
    ensures { (is_of : ACall → T → Bool) (b after : Book) (c : ACall) (r : AReply T) (items : List AnItem) → StepsWith b c r items after → IfTold (λ value. is_of c value ≡ true) r → MayReply (λ d value. is_of d value ≡ true) c r }
{}

/// The interests of a book are a set: two are the same exactly if they are equal (`equal`, `itself`), and registering one that stands changes nothing
/// (`again`).
pub fn interests_are_a_set()
    ensures equal { (i j : AnInterest) → is_same i j ≡ true → i ≡ j }
    ensures itself { (i : AnInterest) → is_same i i ≡ true }
    ensures again { (b : Book) (i : AnInterest) → b.interests i ≡ true → with_interest (Some i) b ≡ b }
{}

/// A call that answers Pending is among the registered interests (`registers`). But for `HandshakeData` it has no other reply, before it and then
/// (`waits`).
pub fn pending_registers<T>()
    ensures registers { (b after : Book) (c : ACall) → Steps {T = T} b c reply.Pending after → IsRegistered c after }
    ensures waits { (b after : Book) (c : ACall) (i : AnInterest) → Steps {T = T} b c reply.Pending after → interest_of c ≡ Some i → (i ≡ waiting.HandshakeData → ⊥) → (waits b i ≡ true) × (waits after i ≡ true) }
{}

/// After a turn of the driver no call waits that has another reply than Pending, but that of `HandshakeData`, which stays until the handshake is
/// complete or an error is kept (`none_left`). A call that has no other reply waits still (`none_lost`), and no other call
/// waits (`none_made`). None waits at all once an error is kept (`lost`).
pub fn turns_settle<T>()
    ensures none_left { (b c : Book) (now : AMoment) (r : AReply T) (items : List AnItem) → StepsWith b (call.Drive now) r items c → (i : AnInterest) → c.interests i ≡ true → MayStay T c i }
    ensures none_lost { (b c : Book) (now : AMoment) (r : AReply T) (items : List AnItem) → StepsWith b (call.Drive now) r items c → (i : AnInterest) → b.interests i ≡ true → waits c i ≡ true → c.interests i ≡ true }
    ensures none_made { (b c : Book) (now : AMoment) (r : AReply T) (items : List AnItem) → StepsWith b (call.Drive now) r items c → (i : AnInterest) → b.interests i ≡ false → c.interests i ≡ false }
    ensures lost { (b c : Book) (now : AMoment) (r : AReply T) (items : List AnItem) → StepsWith b (call.Drive now) r items c → is_some c.error ≡ true → (i : AnInterest) → c.interests i ≡ false }
{}

/// A close takes away all calls that wait (`close`). So does the end of the last handle, if no error is kept (`handle`, `send`, and `recv`, if the handle
/// held the receiving half).
pub fn closes_wake<T>()
    ensures close { (b c : Book) (now : AMoment) (code : ℕ) (reason : List ℕ) (r : AReply T) (items : List AnItem) → StepsWith b (call.Close now code reason) r items c → IsClosed c }
    ensures handle { (b c : Book) (r : AReply T) (items : List AnItem) → StepsWith b call.EndHandle r items c → b.handles ≤ 1 → b.error ≡ None → IsClosed c }
    ensures send { (b c : Book) (id : AnId) (r : AReply T) (items : List AnItem) → StepsWith b (call.EndSend id) r items c → b.handles ≤ 1 → b.error ≡ None → IsClosed c }
    ensures recv { (b c : Book) (id : AnId) (r : AReply T) (items : List AnItem) → b.readers id.0 ≡ true → StepsWith b (call.EndRecv id) r items c → b.handles ≤ 1 → b.error ≡ None → IsClosed c }
{}

/// Short histories of a client are legal. It waits until it is connected, opens a stream, writes to it and reads of it, and its handles end, the last of
/// which closes the connection; no call waits then (`closed`). A stream that the peer reset is stopped, and its code is told, also after a loss for want of
/// memory (`resets`). A stream that no handle holds is read (`unknown`).
pub fn a_legal_history<T>()
    ensures closed { (addresses : APath) → (g : IsLegal {T = T} (row_book addresses) (row_opens ++ row_reads)) × ((i : AnInterest) → g.last.interests i ≡ false) × (g.last.handles ≡ 0) }
    ensures resets { (addresses : APath) → IsLegal {T = T} (row_book addresses) row_resets }
    ensures unknown { (addresses : APath) → IsLegal {T = T} (row_book addresses) row_unknown }
{}
