//! Laws of a book that shows the streams and the datagrams of a connection: it shows them after each kind of call and of frame.

ghost use Rattle.std.specs.Prelude.{◌≡◌, ◌⊎◌, is_some, ◌<◌, ◌≤◌, ◌+◌, ◌++◌, ◌∷◌, ◌&&◌, [], drop, min, map, length, take, ℕ, ℤ, Bool, List, true, false, None, Some, Ok, Err, Option, IfSome};
ghost use Rattle.qh_base.specs.declared.connection_error.ConnectionError.{ConnectionError as AnError};
ghost use Rattle.qh_base.specs.declared.connection_error.ConnectionError.TheVariants as error;
ghost use Rattle.qh_base.specs.declared.path.FourTuple.{FourTuple as APath};
ghost use Rattle.qh_base.specs.declared.stream_id.StreamId.{StreamId as AnId};
ghost use Rattle.qh_book.specs.Book.{Book, first_book, tally, with_close, with_recv, without_handle};
ghost use Rattle.qh_book.specs.Datagrams.{ReadsDatagram, SendsDatagram};
ghost use Rattle.qh_book.specs.Interests.{is_out_of_order, registered, settled};
ghost use Rattle.qh_book.specs.Items.{bring, bring_all, is_memory, item_of};
ghost use Rattle.qh_book.specs.Opening.{Accepts, Opens};
ghost use Rattle.qh_book.specs.Pages.{RecvPage, ResetGiven, SendPage, is_open, live_send, open_recv, unread_at, without_waiting};
ghost use Rattle.qh_book.specs.Receiving.{Reads, Stops, TellsReset, in_mode, with_error, with_recv_ended, with_stopped};
ghost use Rattle.qh_book.specs.Sending.{Finishes as FinishReplies, Resets, SetsPriority, TellsPriority, TellsStop, Writes, is_finish_refused, is_reset_refused, with_send_ended};
ghost use Rattle.qh_book.specs.Shown.{AreFirst, DatagramBounds, IsDatagramStep, IsStreamChange, IsStreamStep, Note as ANote, SameDatagrams, SameStreams, ShowsDatagrams, ShowsStreams, finish_reply, no_note, noted, write_reply};
ghost use Rattle.qh_book.specs.Step.{Allows};
ghost use Rattle.qh_book.specs.Values.{with_setting};
ghost use Rattle.qh_book.specs.declared.call.Call.{Call as ACall};
ghost use Rattle.qh_book.specs.declared.call.Call.TheVariants as call;
ghost use Rattle.qh_book.specs.declared.call.Setting.{Setting as ASetting};
ghost use Rattle.qh_book.specs.declared.call.Setting.TheVariants as setting;
ghost use Rattle.qh_book.specs.declared.item.Item.TheVariants as item;
ghost use Rattle.qh_book.specs.declared.reply.Reply.{Reply as AReply};
ghost use Rattle.qh_book.specs.declared.reply.Reply.TheVariants as reply;
ghost use Rattle.qh_buffers.specs.declared.assembler.Chunk.{Chunk as AChunk};
ghost use Rattle.qh_datagrams.specs.Datagrams.{PlainDatagrams, bytes_of, newest, with_room};
ghost use Rattle.qh_half.specs.Recv.{reset_code};
ghost use Rattle.qh_half.specs.Send.{PlainSend, credit};
ghost use Rattle.qh_half.specs.declared.fault.FinishFault.{FinishFault as AFinishFault};
ghost use Rattle.qh_half.specs.declared.fault.ReadFault.TheVariants as read_fault;
ghost use Rattle.qh_half.specs.declared.fault.ReadableFault.TheVariants as readable;
ghost use Rattle.qh_half.specs.declared.fault.WriteFault.{WriteFault as AWriteFault};
ghost use Rattle.qh_halves.specs.Counts.{has_recv, other_side};
ghost use Rattle.qh_halves.specs.RecvHalves.{Begins, IsRecvStep, Reads as HalfReads, Stops as HalfStops, TakesReset, is_closed_at, readable_fault_at};
ghost use Rattle.qh_halves.specs.SendHalves.{Finishes, HasPriority, IsResetWith, IsStep, Takes, finish_fault_at, is_reset_refused_at, send_at, write_fault_at, write_limit};
ghost use Rattle.qh_spec.specs.StreamId.{stream_id};
ghost use Rattle.qh_spec.specs.declared.sides.Dir.{Dir as ADir};
ghost use Rattle.qh_spec.specs.declared.sides.Side.{Side as ASide};
ghost use Rattle.qh_streams.specs.Items.{confirmed_items, first_items, items_of};
ghost use Rattle.qh_streams.specs.Streams.{IsAckedFrame, IsHandedOver, IsLostFrame, IsOpened, IsReceived, PlainStreams, counted_closed, counts_of, is_two_way, refusal_of, was_opened, with_accepted, with_counts, with_peer};
ghost use Rattle.qh_streams.specs.declared.frames.PeerLimits.{PeerLimits as Limits};
ghost use Rattle.qh_streams.specs.declared.frames.SentFrame.{SentFrame as ASentFrame};
ghost use Rattle.qh_streams.specs.declared.frames.StreamEvent.{StreamEvent as AStreamEvent};
ghost use Rattle.qh_streams.specs.declared.frames.StreamFrame.{StreamFrame as AFrame};
ghost use Rattle.qh_streams.specs.declared.items.Item.{Item as AStreamItem};

/// The first book shows streams that aren't used yet (`first`), and a book that shows such streams shows others that begin anew (`anew`). It shows them
/// still with the peer's first limits (`peer`), and with the send window that is set (`window`). What the peer is told that it may open and send is in no
/// book (`concurrent`, `receive_window`).
pub fn first_shown()
    ensures first { (s : PlainStreams) (addresses : APath) (stable_id : ℕ) (datagram_receive : Option ℕ) (datagram_send : ℕ) → AreFirst s → ShowsStreams s (λ k. no_note) (first_book s.side addresses stable_id s.send.send_window datagram_receive datagram_send) }
    ensures anew { (s t : PlainStreams) (notes : ℕ → ANote) (b : Book) → AreFirst s → AreFirst t → t.side ≡ s.side → t.send.send_window ≡ s.send.send_window → ShowsStreams s notes b → ShowsStreams t notes b }
    ensures peer { (s : PlainStreams) (notes : ℕ → ANote) (b : Book) (peer : Limits) → ShowsStreams s notes b → ShowsStreams (with_peer s peer) notes (bring_all (map item_of (first_items peer)) b) }
    ensures window { (s : PlainStreams) (notes : ℕ → ANote) (b : Book) (bytes : ℕ) → ShowsStreams s notes b → ShowsStreams (record s { send = record s.send { send_window = bytes } }) notes (with_setting (setting.SendWindow bytes) b) }
    ensures concurrent { (s : PlainStreams) (notes : ℕ → ANote) (b : Book) (dir : ADir) (count : ℕ) → ShowsStreams s notes b → ShowsStreams (with_counts s (is_two_way dir) (record (counts_of s (is_two_way dir)) { max_concurrent = count })) notes b }
    ensures receive_window { (s : PlainStreams) (notes : ℕ → ANote) (b : Book) (bytes : ℕ) → ShowsStreams s notes b → ShowsStreams (record s { recv = record s.recv { receive_window = bytes } }) notes b }
{}

/// What is told of streams, which writers wait for that (`told`), and how many streams are closed (`closed`) is in no book.
pub fn untold_shown()
    ensures told { (s : PlainStreams) (notes : ℕ → ANote) (b : Book) (events : List AStreamEvent) (blocked : List ℕ) → ShowsStreams s notes b → ShowsStreams (record s { events = events; blocked = blocked }) notes b }
    ensures closed { (s : PlainStreams) (notes : ℕ → ANote) (b : Book) (id : ℕ) (live : Bool) → ShowsStreams s notes b → ShowsStreams (counted_closed s id live) notes b }
{}

/// A frame that is taken brings the items that the log of the streams has for it (`received`), and one that is acknowledged what it confirms
/// (`acked`). Frames that are sent (`sent`) and lost (`lost`) are in no book.
pub fn frames_shown()
    ensures received { (old new : PlainStreams) (notes : ℕ → ANote) (b : Book) (frame : AFrame) → ShowsStreams old notes b → refusal_of old frame ≡ None → IsReceived old new frame → ShowsStreams new notes (bring_all (map item_of (items_of old frame)) b) }
    ensures acked { (old new : PlainStreams) (notes : ℕ → ANote) (b : Book) (frame : ASentFrame) → ShowsStreams old notes b → IsAckedFrame old new frame → ShowsStreams new notes (bring_all (map item_of (confirmed_items old new frame)) b) }
    ensures sent { (old new : PlainStreams) (notes : ℕ → ANote) (b : Book) (room : ℕ) (frame : ASentFrame) → ShowsStreams old notes b → IsHandedOver old new room frame → ShowsStreams new notes b }
    ensures lost { (old new : PlainStreams) (notes : ℕ → ANote) (b : Book) (frame : ASentFrame) → ShowsStreams old notes b → IsLostFrame old new frame → ShowsStreams new notes b }
{}

/// No datagram waits in the first book (`first`). Datagrams come (`came`) and are sent (`sent`), the longest one that the peer takes gets known
/// (`bounded`), and after want of memory none is left (`emptied`). A call reads one (`read`), queues one if there is room (`queued`), or drops the oldest
/// queued ones for it (`pushed`).
pub fn datagrams_shown<T>()
    ensures first { (side : ASide) (addresses : APath) (stable_id send_window : ℕ) (l : DatagramBounds) (blocked : Bool) → l.most ≡ None
        → ShowsDatagrams (record { incoming = []; outgoing = []; is_send_blocked = blocked }) l (first_book side addresses stable_id send_window l.receive l.send) }
    ensures came { (d : PlainDatagrams) (l : DatagramBounds) (b : Book) (payload : List ℕ) (most : ℕ) → ShowsDatagrams d l b → l.receive ≡ Some most → ShowsDatagrams (record d { incoming = newest most (d.incoming ++ payload ∷ []) }) l (bring (item.Datagram payload) b) }
    ensures sent { (d : PlainDatagrams) (l : DatagramBounds) (b : Book) (count : ℕ) (blocked : Bool) → ShowsDatagrams d l b → ShowsDatagrams (record d { outgoing = drop count d.outgoing; is_send_blocked = blocked }) l (bring (item.DatagramsSent count) b) }
    ensures bounded { (d : PlainDatagrams) (l : DatagramBounds) (b : Book) (most : Option ℕ) → ShowsDatagrams d l b → ShowsDatagrams d (record l { most = most }) (bring (item.MaxDatagramSize most) b) }
    ensures emptied { (d : PlainDatagrams) (l : DatagramBounds) (b : Book) (blocked : Bool) → ShowsDatagrams d l b → ShowsDatagrams (record { incoming = []; outgoing = []; is_send_blocked = blocked }) l (bring (item.Lost error.Memory) b) }
    ensures read { (d new : PlainDatagrams) (l : DatagramBounds) (b : Book) (payload : List ℕ) → ShowsDatagrams d l b → d.incoming ≡ payload ∷ new.incoming → new ≡ record d { incoming = new.incoming }
        → IsDatagramStep {T = T} b call.ReadDatagram (reply.Datagram payload) new l }
    ensures queued { (d new : PlainDatagrams) (l : DatagramBounds) (b : Book) (payload : List ℕ) (most : ℕ) → ShowsDatagrams d l b → b.error ≡ None → is_some l.receive ≡ true → l.most ≡ Some most → length payload ≤ most
        → bytes_of d.outgoing + length payload ≤ l.send → new ≡ record d { outgoing = d.outgoing ++ payload ∷ [] } → IsDatagramStep {T = T} b (call.SendDatagram payload true) reply.Done new l }
    ensures pushed { (d new : PlainDatagrams) (l : DatagramBounds) (b : Book) (payload : List ℕ) (most : ℕ) → ShowsDatagrams d l b → b.error ≡ None → is_some l.receive ≡ true → l.most ≡ Some most → length payload ≤ most
        → new ≡ record d { outgoing = with_room (length payload) l.send d.outgoing ++ payload ∷ [] } → IsDatagramStep {T = T} b (call.SendDatagram payload false) reply.Done new l }
{}

/// None waits to be read (`read`, and `lost` once an error is kept). One isn't queued if datagrams are off (`disabled`), the peer takes none
/// (`unsupported`), or it is too long (`too_large`), or it waits for room (`waits`).
pub fn datagram_refusals_shown<T>()
    ensures read { (d : PlainDatagrams) (l : DatagramBounds) (b : Book) → ShowsDatagrams d l b → d.incoming ≡ [] → b.error ≡ None → ReadsDatagram {T = T} b reply.Pending b }
    ensures lost { (d : PlainDatagrams) (l : DatagramBounds) (b : Book) (e : AnError) → ShowsDatagrams d l b → d.incoming ≡ [] → b.error ≡ Some e → ReadsDatagram {T = T} b (reply.ConnectionLost e) b }
    ensures disabled { (d : PlainDatagrams) (l : DatagramBounds) (b : Book) (payload : List ℕ) (wait : Bool) → ShowsDatagrams d l b → b.error ≡ None → l.receive ≡ None → SendsDatagram {T = T} b payload wait reply.Disabled b }
    ensures unsupported { (d : PlainDatagrams) (l : DatagramBounds) (b : Book) (payload : List ℕ) (wait : Bool) → ShowsDatagrams d l b → b.error ≡ None → is_some l.receive ≡ true → l.most ≡ None → SendsDatagram {T = T} b payload wait reply.UnsupportedByPeer b }
    ensures too_large { (d : PlainDatagrams) (l : DatagramBounds) (b : Book) (payload : List ℕ) (wait : Bool) (most : ℕ) → ShowsDatagrams d l b → b.error ≡ None → is_some l.receive ≡ true → l.most ≡ Some most → most < length payload
        → SendsDatagram {T = T} b payload wait reply.TooLarge b }
    ensures waits { (d : PlainDatagrams) (l : DatagramBounds) (b : Book) (payload : List ℕ) (most : ℕ) → ShowsDatagrams d l b → b.error ≡ None → is_some l.receive ≡ true → l.most ≡ Some most → length payload ≤ most
        → l.send < bytes_of d.outgoing + length payload → SendsDatagram {T = T} b payload true reply.Pending b }
{}

/// A book with the same fields shows the same streams (`streams`) and datagrams (`datagrams`). So does each that differs in its interests (`registered`,
/// `settled`), its handles (`cloned`, `ended`) or its close (`closed`, `lost`, if not for want of memory), and one that is connected (`connected`). An item
/// of datagrams changes no streams (`came`, `sent`, `bounded`); items of streams and settings change nothing else (`items`, `set`), and so no datagrams
/// (`changed`); and neither does a call (`read`, `written`).
pub fn kept_shown<T>()
    ensures streams { (s : PlainStreams) (notes : ℕ → ANote) (b c : Book) → SameStreams b c → ShowsStreams s notes b → ShowsStreams s notes c }
    ensures datagrams { (d : PlainDatagrams) (l : DatagramBounds) (b c : Book) → SameDatagrams b c → ShowsDatagrams d l b → ShowsDatagrams d l c }
    ensures registered { (c : ACall) (r : AReply T) (b : Book) → SameStreams b (registered c r b) × SameDatagrams b (registered c r b) }
    ensures settled { (b : Book) → SameStreams b (settled b) × SameDatagrams b (settled b) }
    ensures cloned { (b : Book) (handles : ℕ) → SameStreams b (record b { handles = handles }) × SameDatagrams b (record b { handles = handles }) }
    ensures ended { (b : Book) → SameStreams b (without_handle b) × SameDatagrams b (without_handle b) }
    ensures closed { (b : Book) → SameStreams b (with_close b) × SameDatagrams b (with_close b) }
    ensures lost { (e : AnError) (b : Book) → is_memory e ≡ false → SameStreams b (bring (item.Lost e) b) × SameDatagrams b (bring (item.Lost e) b) }
    ensures connected { (b : Book) → SameStreams b (bring item.Connected b) × SameDatagrams b (bring item.Connected b) }
    ensures came { (payload : List ℕ) (b : Book) → SameStreams b (bring (item.Datagram payload) b) }
    ensures sent { (count : ℕ) (b : Book) → SameStreams b (bring (item.DatagramsSent count) b) }
    ensures bounded { (most : Option ℕ) (b : Book) → SameStreams b (bring (item.MaxDatagramSize most) b) }
    ensures items { (items : List AStreamItem) (b : Book) → IsStreamChange b (bring_all (map item_of items) b) }
    ensures set { (s : ASetting) (b : Book) → IsStreamChange b (with_setting s b) }
    ensures changed { (b c : Book) → IsStreamChange b c → SameDatagrams b c }
    ensures read { (b : Book) (c : ACall) (r : AReply T) (new : PlainDatagrams) (l : DatagramBounds) (step : IsDatagramStep b c r new l) → SameStreams b step.after }
    ensures written { (b : Book) (c : ACall) (r : AReply T) (new : PlainStreams) (notes : ℕ → ANote) (step : IsStreamStep b c r new notes) → SameDatagrams b step.after }
{}

/// Calls on sending halves are steps of the book: bytes are written (`written`), a stream is finished (`finished`), reset (`reset`), and given a
/// priority (`priority`).
pub fn writes_shown<T>()
    ensures written { (old new : PlainStreams) (notes : ℕ → ANote) (b : Book) (id : AnId) → ShowsStreams old notes b → new ≡ record old { send = new.send } → (payload : List ℕ) (n : ℕ) → b.error ≡ None → write_fault_at old.send id.0 ≡ None
        → IfSome (send_at old.send id.0) (λ h. n ≡ min (length payload) (credit h (write_limit old.send))) → IsStep (Takes (take n payload)) old.send new.send id.0 n → IsStreamStep {T = T} b (call.Write id payload) (reply.Count n) new notes }
    ensures finished { (old new : PlainStreams) (notes : ℕ → ANote) (b : Book) (id : AnId) → ShowsStreams old notes b → new ≡ record old { send = new.send } → IsStep Finishes old.send new.send id.0 0 → IsStreamStep {T = T} b (call.Finish id) reply.Done new notes }
    ensures reset { (old new : PlainStreams) (notes : ℕ → ANote) (b : Book) (id : AnId) → ShowsStreams old notes b → new ≡ record old { send = new.send } → (code : ℕ) → IsStep (IsResetWith code) old.send new.send id.0 0 → IsStreamStep {T = T} b (call.Reset id code) reply.Done new notes }
    ensures priority { (old new : PlainStreams) (notes : ℕ → ANote) (b : Book) (id : AnId) → ShowsStreams old notes b → new ≡ record old { send = new.send } → (priority : ℤ) → IsStep (HasPriority priority) old.send new.send id.0 0
        → IsStreamStep {T = T} b (call.SetPriority id priority) reply.Done new notes }
{}

/// And so are those that the connection refuses: a write (`write`), the end of a stream (`finish`), a reset (`reset`), a stop (`stop`), and a read of
/// a half that is closed (`read`). A half that isn't there has no live page (`no_half`), one that is there has one that says of the peer's stop and of
/// its priority what it says (`half`).
pub fn refusals_shown<T>()
    ensures write { (s : PlainStreams) (notes : ℕ → ANote) (b : Book) (id : AnId) → ShowsStreams s notes b → (payload : List ℕ) (e : AWriteFault) → b.error ≡ None → write_fault_at s.send id.0 ≡ Some e → Writes {T = T} b id payload (write_reply e) b }
    ensures finish { (s : PlainStreams) (notes : ℕ → ANote) (b : Book) (id : AnId) → ShowsStreams s notes b → (e : AFinishFault) → finish_fault_at s.send id.0 ≡ Some e → FinishReplies {T = T} b id (finish_reply e) b }
    ensures reset { (s : PlainStreams) (notes : ℕ → ANote) (b : Book) (id : AnId) → ShowsStreams s notes b → (code : ℕ) → is_reset_refused_at s.send id.0 ≡ true → Resets {T = T} b id code reply.ClosedStream b }
    ensures stop { (s : PlainStreams) (notes : ℕ → ANote) (b : Book) (id : AnId) → ShowsStreams s notes b → is_closed_at s.recv id.0 ≡ true → Stops {T = T} b id reply.ClosedStream b }
    ensures read { (s : PlainStreams) (notes : ℕ → ANote) (b : Book) (id : ℕ) (is_ordered : Bool) → ShowsStreams s notes b → readable_fault_at s.recv id is_ordered ≡ Some readable.ClosedStream → open_recv (b.recvs id) ≡ None }
    ensures no_half { (s : PlainStreams) (notes : ℕ → ANote) (b : Book) (id : AnId) → ShowsStreams s notes b → send_at s.send id.0 ≡ None → live_send (b.sends id.0) ≡ None }
    ensures half { (s : PlainStreams) (notes : ℕ → ANote) (b : Book) (id : AnId) → ShowsStreams s notes b → (h : PlainSend) → send_at s.send id.0 ≡ Some h
        → (p : SendPage) × (live_send (b.sends id.0) ≡ Some p) × (p.stop_code ≡ h.stop_reason) × (p.priority ≡ h.priority) }
{}

/// Of a sending half the code is told with which the peer asked to stop it (`stop`, or `stop_waits`, and `stop_lost` once an error is kept), and its
/// priority (`priority`). None is told of a half that isn't there (`stop_gone`, if want of memory didn't take it, and `priority_gone`), and it is given
/// none (`set_gone`).
pub fn sends_told_shown<T>()
    ensures stop { (s : PlainStreams) (notes : ℕ → ANote) (b : Book) (id : AnId) → ShowsStreams s notes b → (h : PlainSend) → send_at s.send id.0 ≡ Some h → (code : ℕ) → h.stop_reason ≡ Some code → TellsStop {T = T} b id (reply.Code (Some code)) b }
    ensures stop_waits { (s : PlainStreams) (notes : ℕ → ANote) (b : Book) (id : AnId) → ShowsStreams s notes b → (h : PlainSend) → send_at s.send id.0 ≡ Some h → h.stop_reason ≡ None → b.error ≡ None → TellsStop {T = T} b id reply.Pending b }
    ensures stop_lost { (s : PlainStreams) (notes : ℕ → ANote) (b : Book) (id : AnId) → ShowsStreams s notes b → (h : PlainSend) → send_at s.send id.0 ≡ Some h → (e : AnError) → h.stop_reason ≡ None → b.error ≡ Some e → TellsStop {T = T} b id (reply.ConnectionLost e) b }
    ensures stop_gone { (s : PlainStreams) (notes : ℕ → ANote) (b : Book) (id : AnId) → ShowsStreams s notes b → b.is_emptied ≡ false → send_at s.send id.0 ≡ None → TellsStop {T = T} b id (reply.Code None) b }
    ensures priority { (s : PlainStreams) (notes : ℕ → ANote) (b : Book) (id : AnId) → ShowsStreams s notes b → (h : PlainSend) → send_at s.send id.0 ≡ Some h → TellsPriority {T = T} b id (reply.Priority h.priority) b }
    ensures priority_gone { (s : PlainStreams) (notes : ℕ → ANote) (b : Book) (id : AnId) → ShowsStreams s notes b → send_at s.send id.0 ≡ None → TellsPriority {T = T} b id reply.ClosedStream b }
    ensures set_gone { (s : PlainStreams) (notes : ℕ → ANote) (b : Book) (id : AnId) → ShowsStreams s notes b → (priority : ℤ) → send_at s.send id.0 ≡ None → SetsPriority {T = T} b id priority reply.ClosedStream b }
{}

/// Streams are opened (`opened`) and accepted (`accepted`), or a call waits for one (`open_waits`, `accept_waits`); none comes once the connection is
/// lost (`accept_lost`).
pub fn opens_shown<T>()
    ensures opened { (old new : PlainStreams) (notes : ℕ → ANote) (b : Book) (id : AnId) (dir : ADir) → ShowsStreams old notes b → b.error ≡ None → IsOpened old new id.0 → id.0 ≡ stream_id old.side dir (counts_of old (is_two_way dir)).opened
        → (counts_of old (is_two_way dir)).opened < (counts_of old (is_two_way dir)).max_opened → IsStreamStep {T = T} b (call.Open dir) (reply.Opened id) new notes }
    ensures accepted { (old new : PlainStreams) (notes : ℕ → ANote) (b : Book) (id : AnId) (dir : ADir) → ShowsStreams old notes b → new ≡ with_counts old (is_two_way dir) (with_accepted (counts_of old (is_two_way dir)))
        → id.0 ≡ stream_id (other_side old.side) dir (counts_of old (is_two_way dir)).accepted → (counts_of old (is_two_way dir)).accepted < (counts_of old (is_two_way dir)).arrived → IsStreamStep {T = T} b (call.Accept dir) (reply.Opened id) new notes }
    ensures open_waits { (s : PlainStreams) (notes : ℕ → ANote) (b : Book) (dir : ADir) → ShowsStreams s notes b → b.error ≡ None → (counts_of s (is_two_way dir)).opened ≡ (counts_of s (is_two_way dir)).max_opened → Opens {T = T} b dir reply.Pending b }
    ensures accept_waits { (s : PlainStreams) (notes : ℕ → ANote) (b : Book) (dir : ADir) → ShowsStreams s notes b → b.error ≡ None → (counts_of s (is_two_way dir)).accepted ≡ (counts_of s (is_two_way dir)).arrived → Accepts {T = T} b dir reply.Pending b }
    ensures accept_lost { (s : PlainStreams) (notes : ℕ → ANote) (b : Book) (dir : ADir) (e : AnError) → ShowsStreams s notes b → b.error ≡ Some e → (counts_of s (is_two_way dir)).accepted ≡ (counts_of s (is_two_way dir)).arrived → Accepts {T = T} b dir (reply.ConnectionLost e) b }
{}

/// A read of a stream that a handle holds gives bytes (`bytes`), the end (`end`) or the peer's reset (`reset`), or finds nothing (`blocked`, and `lost`
/// once an error is kept). One that is refused for its order gives that error (`illegal`), and if it is of no bytes none (`nothing`).
pub fn reads_shown<T>()
    ensures bytes { (old mid new : PlainStreams) (notes : ℕ → ANote) (b : Book) (id : AnId) (max_length : ℕ) (is_ordered live : Bool) → ShowsStreams old notes b → b.readers id.0 ≡ true → readable_fault_at old.recv id.0 is_ordered ≡ None → IsRecvStep (Begins is_ordered) old.recv mid.recv id.0 0
        → mid ≡ record old { recv = mid.recv } → new ≡ counted_closed (record mid { recv = new.recv }) id.0 live → (c : AChunk) → IsRecvStep (HalfReads max_length (Ok (Some c))) mid.recv new.recv id.0 0
        → IsStreamStep {T = T} b (call.Read id max_length is_ordered) (reply.Bytes c.offset c.bytes) new notes }
    ensures end { (old mid new : PlainStreams) (notes : ℕ → ANote) (b : Book) (id : AnId) (max_length : ℕ) (is_ordered live : Bool) → ShowsStreams old notes b → b.readers id.0 ≡ true → readable_fault_at old.recv id.0 is_ordered ≡ None → IsRecvStep (Begins is_ordered) old.recv mid.recv id.0 0
        → mid ≡ record old { recv = mid.recv } → new ≡ counted_closed (record mid { recv = new.recv }) id.0 live → IsRecvStep (HalfReads max_length (Ok None)) mid.recv new.recv id.0 0
        → IsStreamStep {T = T} b (call.Read id max_length is_ordered) reply.Ended new notes }
    ensures reset { (old mid new : PlainStreams) (notes : ℕ → ANote) (b : Book) (id : AnId) (max_length : ℕ) (is_ordered live : Bool) → ShowsStreams old notes b → b.readers id.0 ≡ true → readable_fault_at old.recv id.0 is_ordered ≡ None → IsRecvStep (Begins is_ordered) old.recv mid.recv id.0 0
        → mid ≡ record old { recv = mid.recv } → new ≡ counted_closed (record mid { recv = new.recv }) id.0 live → (code : ℕ) → IsRecvStep (HalfReads max_length (Err (read_fault.Reset code))) mid.recv new.recv id.0 0
        → IsStreamStep {T = T} b (call.Read id max_length is_ordered) (reply.Reset code) new (noted notes id.0 (record { code = Some code; is_told = true; gave_error = true })) }
    ensures blocked { (old mid new : PlainStreams) (notes : ℕ → ANote) (b : Book) (id : AnId) (max_length : ℕ) (is_ordered live : Bool) → ShowsStreams old notes b → b.readers id.0 ≡ true → readable_fault_at old.recv id.0 is_ordered ≡ None → IsRecvStep (Begins is_ordered) old.recv mid.recv id.0 0
        → mid ≡ record old { recv = mid.recv } → new ≡ counted_closed (record mid { recv = new.recv }) id.0 live → IsRecvStep (HalfReads max_length (Err read_fault.Blocked)) mid.recv new.recv id.0 0 → b.error ≡ None
        → IsStreamStep {T = T} b (call.Read id max_length is_ordered) reply.Pending new notes }
    ensures lost { (old mid new : PlainStreams) (notes : ℕ → ANote) (b : Book) (id : AnId) (max_length : ℕ) (is_ordered live : Bool) → ShowsStreams old notes b → b.readers id.0 ≡ true → readable_fault_at old.recv id.0 is_ordered ≡ None → IsRecvStep (Begins is_ordered) old.recv mid.recv id.0 0
        → mid ≡ record old { recv = mid.recv } → new ≡ counted_closed (record mid { recv = new.recv }) id.0 live → (e : AnError) → IsRecvStep (HalfReads max_length (Err read_fault.Blocked)) mid.recv new.recv id.0 0 → b.error ≡ Some e
        → IsStreamStep {T = T} b (call.Read id max_length is_ordered) (reply.ConnectionLost e) new (noted notes id.0 (record (notes id.0) { gave_error = true })) }
    ensures illegal { (s : PlainStreams) (notes : ℕ → ANote) (b : Book) (id : AnId) (max_length : ℕ) (is_ordered : Bool) → ShowsStreams s notes b → b.readers id.0 ≡ true → readable_fault_at s.recv id.0 is_ordered ≡ Some readable.IllegalOrderedRead → 0 < max_length
        → IsStreamStep {T = T} b (call.Read id max_length is_ordered) reply.IllegalOrderedRead s (noted notes id.0 (record (notes id.0) { gave_error = true })) }
    ensures nothing { (s : PlainStreams) (notes : ℕ → ANote) (b : Book) (id : AnId) (is_ordered : Bool) (offset : ℕ) → ShowsStreams s notes b → b.readers id.0 ≡ true → readable_fault_at s.recv id.0 is_ordered ≡ Some readable.IllegalOrderedRead
        → IsStreamStep {T = T} b (call.Read id 0 is_ordered) (reply.Bytes offset []) s notes }
{}

/// A stream that a handle holds is stopped (`stopped`, and `reset` if the peer's reset is taken for it), and the peer's reset is told (`told`), or waited
/// for (`untold`, and `lost` once an error is kept).
pub fn stops_shown<T>()
    ensures stopped { (old new : PlainStreams) (notes : ℕ → ANote) (b : Book) (id : AnId) (live : Bool) → ShowsStreams old notes b → b.readers id.0 ≡ true → new ≡ counted_closed (record old { recv = new.recv }) id.0 live → (code : ℕ) (step : IsRecvStep (HalfStops code) old.recv new.recv id.0 0)
        → IsStreamStep {T = T} b (call.Stop id code) reply.Done new (noted notes id.0 (record (notes id.0) { code = reset_code step.half.state })) }
    ensures reset { (old new : PlainStreams) (notes : ℕ → ANote) (b : Book) (id : AnId) (live : Bool) → ShowsStreams old notes b → b.readers id.0 ≡ true → new ≡ counted_closed (record old { recv = new.recv }) id.0 live → (error_code code : ℕ) → IsRecvStep (TakesReset (Some code)) old.recv new.recv id.0 0
        → IsStreamStep {T = T} b (call.Stop id error_code) reply.Done new (noted notes id.0 (record (notes id.0) { code = Some code })) }
    ensures told { (old new : PlainStreams) (notes : ℕ → ANote) (b : Book) (id : AnId) (live : Bool) → ShowsStreams old notes b → b.readers id.0 ≡ true → new ≡ counted_closed (record old { recv = new.recv }) id.0 live → (code : ℕ) → IsRecvStep (TakesReset (Some code)) old.recv new.recv id.0 0
        → IsStreamStep {T = T} b (call.ReceivedReset id) (reply.Code (Some code)) new (noted notes id.0 (record (notes id.0) { code = Some code; is_told = true })) }
    ensures untold { (old new : PlainStreams) (notes : ℕ → ANote) (b : Book) (id : AnId) (live : Bool) → ShowsStreams old notes b → b.readers id.0 ≡ true → new ≡ counted_closed (record old { recv = new.recv }) id.0 live → IsRecvStep (TakesReset None) old.recv new.recv id.0 0 → b.error ≡ None
        → IsStreamStep {T = T} b (call.ReceivedReset id) reply.Pending new notes }
    ensures lost { (old new : PlainStreams) (notes : ℕ → ANote) (b : Book) (id : AnId) (live : Bool) → ShowsStreams old notes b → b.readers id.0 ≡ true → new ≡ counted_closed (record old { recv = new.recv }) id.0 live → (e : AnError) → IsRecvStep (TakesReset None) old.recv new.recv id.0 0 → b.error ≡ Some e
        → IsStreamStep {T = T} b (call.ReceivedReset id) (reply.ConnectionLost e) new notes }
{}

/// Of a receiving half that the connection has no more, or that was stopped, a read gives no bytes if none are wanted (`nothing`), and otherwise the end
/// if the stream was opened and this end reads it (`end`). If not it is closed (`closed`), or lost with the connection (`lost`). The code of its reset is
/// told if it is noted and a handle holds the half (`code`), and none if none is (`no_code`). Of a half that is read the page says whether a read gave an
/// error (`half`).
pub fn closed_recvs_shown<T>()
    ensures nothing { (s : PlainStreams) (notes : ℕ → ANote) (b : Book) (id : AnId) (is_ordered : Bool) (offset : ℕ) → ShowsStreams s notes b → readable_fault_at s.recv id.0 is_ordered ≡ Some readable.ClosedStream
        → Reads {T = T} b id 0 is_ordered (reply.Bytes offset []) b }
    ensures end { (s : PlainStreams) (notes : ℕ → ANote) (b : Book) (id : AnId) (max_length : ℕ) (is_ordered : Bool) → ShowsStreams s notes b → readable_fault_at s.recv id.0 is_ordered ≡ Some readable.ClosedStream → 0 < max_length
        → (has_recv s.side id.0 && was_opened s id.0) ≡ true → Reads {T = T} b id max_length is_ordered reply.Ended b }
    ensures closed { (s : PlainStreams) (notes : ℕ → ANote) (b : Book) (id : AnId) (max_length : ℕ) (is_ordered : Bool) → ShowsStreams s notes b → readable_fault_at s.recv id.0 is_ordered ≡ Some readable.ClosedStream → 0 < max_length
        → (has_recv s.side id.0 && was_opened s id.0) ≡ false → b.error ≡ None → Reads {T = T} b id max_length is_ordered reply.ClosedStream b }
    ensures lost { (s : PlainStreams) (notes : ℕ → ANote) (b : Book) (id : AnId) (max_length : ℕ) (is_ordered : Bool) (e : AnError) → ShowsStreams s notes b → readable_fault_at s.recv id.0 is_ordered ≡ Some readable.ClosedStream → 0 < max_length
        → (has_recv s.side id.0 && was_opened s id.0) ≡ false → b.error ≡ Some e → Reads {T = T} b id max_length is_ordered (reply.ConnectionLost e) b }
    ensures code { (s : PlainStreams) (notes : ℕ → ANote) (b : Book) (id : AnId) (code : ℕ) → ShowsStreams s notes b → b.readers id.0 ≡ true → is_closed_at s.recv id.0 ≡ true → (notes id.0).code ≡ Some code
        → IsStreamStep {T = T} b (call.ReceivedReset id) (reply.Code (Some code)) s (noted notes id.0 (record (notes id.0) { is_told = true })) }
    ensures no_code { (s : PlainStreams) (notes : ℕ → ANote) (b : Book) (id : AnId) → ShowsStreams s notes b → is_closed_at s.recv id.0 ≡ true → (notes id.0).code ≡ None → TellsReset {T = T} b id (reply.Code None) b }
    ensures half { (s : PlainStreams) (notes : ℕ → ANote) (b : Book) (id : ℕ) → ShowsStreams s notes b → is_closed_at s.recv id ≡ false → (p : RecvPage) × (open_recv (b.recvs id) ≡ Some p) × (p.gave_error ≡ (notes id).gave_error) }
{}

/// What a connection does when a handle of a stream ends is what the book says. The sending half is finished (`finish`), or reset with the peer's code
/// (`reset`), or nothing is left to be done (`nothing`); the receiving half is stopped (`stop`), or stays (`stays`); and nothing changes once an error is
/// kept (`lost`). That a handle is gone is in the book alone.
pub fn ends_shown<T>()
    ensures finish { (b c : Book) (id : AnId) → b.error ≡ None → FinishReplies {T = T} b id reply.Done c → (p : SendPage) → live_send (b.sends id.0) ≡ Some p → p.stop_code ≡ None → c ≡ with_send_ended b id.0 }
    ensures reset { (b c : Book) (id : AnId) (code : ℕ) → b.error ≡ None → Resets {T = T} b id code reply.Done c → (p : SendPage) → live_send (b.sends id.0) ≡ Some p → p.stop_code ≡ Some code → c ≡ with_send_ended b id.0 }
    ensures nothing { (b : Book) (id : ℕ) → b.error ≡ None → (is_reset_refused (live_send (b.sends id)) ≡ true) ⊎ (is_finish_refused (live_send (b.sends id)) ≡ true) → b ≡ with_send_ended b id }
    ensures stop { (b c : Book) (id : AnId) → b.error ≡ None → Stops {T = T} b id reply.Done c → (p : RecvPage) → open_recv (b.recvs id.0) ≡ Some p → p.gave_error ≡ false → c ≡ with_recv_ended b id.0 }
    ensures stays { (b : Book) (id : ℕ) → b.error ≡ None → (open_recv (b.recvs id) ≡ None) ⊎ ((p : RecvPage) × (open_recv (b.recvs id) ≡ Some p) × (p.gave_error ≡ true)) → b ≡ with_recv_ended b id }
    ensures lost { (b : Book) (id : ℕ) → is_some b.error ≡ true → (b ≡ with_send_ended b id) × (b ≡ with_recv_ended b id) }
{}

/// Want of memory ends a connection with that error (`error`): its sending halves are gone (`gone`), no stream waits to be accepted (`accepted`), and no
/// datagram waits (`datagrams`). A receiving half has a page still if it had one (`none`, `some`), from which what waited is gone. While a handle holds
/// one of which nothing waits, and that is open, a read finds it lost (`read_lost`), or is refused for its order (`read_illegal`), or gives no bytes if none
/// are wanted (`read_nothing`); it can be stopped (`stop`), and a reset won't come (`reset_lost`). If it is shut, a read gives the end (`shut_read`), or no
/// bytes if none are wanted (`shut_nothing`); it isn't stopped again (`shut_stop`), and the code of its reset is told (`shut_code`), or none
/// (`shut_none`). One that no handle holds is closed to reads and stops (`unheld_read`, `unheld_stop`), no code is told of it (`unheld_reset`), and
/// nothing is left to end (`unheld_end`).
pub fn emptied_shown<T>()
    ensures error { (b : Book) → (bring (item.Lost error.Memory) b).error ≡ Some error.Memory }
    ensures gone { (b : Book) (id : ℕ) → ((bring (item.Lost error.Memory) b).sends id ≡ None) × ((bring (item.Lost error.Memory) b).is_emptied ≡ true) }
    ensures accepted { (b : Book) (dir : ADir) → (tally (bring (item.Lost error.Memory) b) dir).arrived ≤ (tally (bring (item.Lost error.Memory) b) dir).accepted }
    ensures datagrams { (b : Book) → ((bring (item.Lost error.Memory) b).datagrams ≡ []) × ((bring (item.Lost error.Memory) b).queued ≡ []) }
    ensures none { (b : Book) (k : ℕ) → b.recvs k ≡ None → (bring (item.Lost error.Memory) b).recvs k ≡ None }
    ensures some { (b : Book) (k : ℕ) (p : RecvPage) → b.recvs k ≡ Some p → (bring (item.Lost error.Memory) b).recvs k ≡ Some (without_waiting p) }
    ensures read_lost { (b : Book) (id : AnId) (max_length : ℕ) (is_ordered : Bool) (p : RecvPage) (e : AnError) → b.readers id.0 ≡ true → open_recv (b.recvs id.0) ≡ Some p → p.reset_code ≡ None → p.end ≡ None → ((k : ℕ) → unread_at p k ≡ None)
        → b.error ≡ Some e → 0 < max_length → is_out_of_order p is_ordered ≡ false → Allows {T = T} b (call.Read id max_length is_ordered) (reply.ConnectionLost e) (with_recv b id.0 (with_error (in_mode is_ordered p))) }
    ensures read_illegal { (b : Book) (id : AnId) (max_length : ℕ) (is_ordered : Bool) (p : RecvPage) → b.readers id.0 ≡ true → open_recv (b.recvs id.0) ≡ Some p → 0 < max_length → is_out_of_order p is_ordered ≡ true
        → Allows {T = T} b (call.Read id max_length is_ordered) reply.IllegalOrderedRead (with_recv b id.0 (with_error p)) }
    ensures read_nothing { (b : Book) (id : AnId) (is_ordered : Bool) (p : RecvPage) (offset : ℕ) → b.readers id.0 ≡ true → open_recv (b.recvs id.0) ≡ Some p
        → Allows {T = T} b (call.Read id 0 is_ordered) (reply.Bytes offset []) (with_recv b id.0 (in_mode is_ordered p)) }
    ensures stop { (b : Book) (id : AnId) (code : ℕ) (p : RecvPage) → b.readers id.0 ≡ true → open_recv (b.recvs id.0) ≡ Some p → Allows {T = T} b (call.Stop id code) reply.Done (with_recv b id.0 (with_stopped p)) }
    ensures reset_lost { (b : Book) (id : AnId) (p : RecvPage) (e : AnError) → b.readers id.0 ≡ true → open_recv (b.recvs id.0) ≡ Some p → p.reset_code ≡ None → b.error ≡ Some e → Allows {T = T} b (call.ReceivedReset id) (reply.ConnectionLost e) b }
    ensures shut_read { (b : Book) (id : AnId) (max_length : ℕ) (is_ordered : Bool) (p : RecvPage) → b.readers id.0 ≡ true → b.recvs id.0 ≡ Some p → is_open p.state ≡ false → 0 < max_length → Allows {T = T} b (call.Read id max_length is_ordered) reply.Ended b }
    ensures shut_nothing { (b : Book) (id : AnId) (is_ordered : Bool) (p : RecvPage) (offset : ℕ) → b.readers id.0 ≡ true → b.recvs id.0 ≡ Some p → is_open p.state ≡ false → Allows {T = T} b (call.Read id 0 is_ordered) (reply.Bytes offset []) b }
    ensures shut_stop { (b : Book) (id : AnId) (code : ℕ) (p : RecvPage) → b.readers id.0 ≡ true → b.recvs id.0 ≡ Some p → is_open p.state ≡ false → Allows {T = T} b (call.Stop id code) reply.ClosedStream b }
    ensures shut_code { (b : Book) (id : AnId) (p : RecvPage) (code : ℕ) → b.readers id.0 ≡ true → b.recvs id.0 ≡ Some p → p.reset_code ≡ Some code
        → Allows {T = T} b (call.ReceivedReset id) (reply.Code (Some code)) (with_recv b id.0 (record p { state = ResetGiven })) }
    ensures shut_none { (b : Book) (id : AnId) (p : RecvPage) → b.readers id.0 ≡ true → b.recvs id.0 ≡ Some p → is_open p.state ≡ false → p.reset_code ≡ None → Allows {T = T} b (call.ReceivedReset id) (reply.Code None) b }
    ensures unheld_read { (b : Book) (id : AnId) (max_length : ℕ) (is_ordered : Bool) → b.readers id.0 ≡ false → Allows {T = T} b (call.Read id max_length is_ordered) reply.ClosedStream b }
    ensures unheld_stop { (b : Book) (id : AnId) (code : ℕ) → b.readers id.0 ≡ false → Allows {T = T} b (call.Stop id code) reply.ClosedStream b }
    ensures unheld_reset { (b : Book) (id : AnId) → b.readers id.0 ≡ false → Allows {T = T} b (call.ReceivedReset id) (reply.Code None) b }
    ensures unheld_end { (b : Book) (id : AnId) → b.readers id.0 ≡ false → Allows {T = T} b (call.EndRecv id) reply.Done b }
{}
