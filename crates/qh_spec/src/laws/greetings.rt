//! Laws of the order in which two ends greet, of the part of a transcript that concerns 1-RTT packets, and of limits that are
//! announced.

ghost use Rattle.std.specs.Prelude.{◌≡◌, ◌≤◌, ◌⊎◌, ◌++◌, ◌∷◌, ℕ, List, [], true, false};
ghost use Rattle.qh_spec.specs.Announced.{Limit, Connection, Stream, first_limit, Announces, IsAnnounced, IsPermitted};
ghost use Rattle.qh_spec.specs.Greeted.{GreetsInOrder, SentInOrder, AreBothGreeted, HasGreetedInOrder, HasPacketOf, HasCrypto, IsGreeted, AreAnnouncedFirst};
ghost use Rattle.qh_spec.specs.GreetedRows.{carrying_crypto, limit_hello, first_half, second_half, hello_limits, carrying_max_data, carrying_low_max_data, hello_and, greeting_events};
ghost use Rattle.qh_spec.specs.HandshakeOrder.{Progress, Orders};
ghost use Rattle.qh_spec.specs.Hello.{FirstLimits};
ghost use Rattle.qh_spec.specs.Honest.{IsHonest};
ghost use Rattle.qh_spec.specs.Lawful.{Lawful};
ghost use Rattle.qh_spec.specs.Link.{other, given_to};
ghost use Rattle.qh_spec.specs.Lists.{In};
ghost use Rattle.qh_spec.specs.Parted.{IsPartOf, CameFrom, AreShort, IsInitialAlone, IsSplit, EndsWith, IsShort};
ghost use Rattle.qh_spec.specs.Transcript.{Act, HandedIn, HandedOut, handed_in, handed_out, written, finished, pieces_read, ended};
ghost use Rattle.qh_spec.specs.WireRows.{forged, initial_part, two_packets};
ghost use Rattle.qh_spec.specs.declared.link.Event.TheVariants.{Sent};
ghost use Rattle.qh_spec.specs.declared.link.Event.{Event};
ghost use Rattle.qh_spec.specs.declared.sides.Side.TheVariants.{Client, Server};
ghost use Rattle.qh_spec.specs.declared.sides.Side.{Side};
ghost use Rattle.qh_spec.specs.declared.sides.Space.TheVariants.{Data};

/// Over an honest link whose sides greet in order both were greeted before either sent a 1-RTT packet.
pub fn greeted_first()
    ensures { (own peer : ℕ) (events before after : List Event) (side : Side) (datagram : List ℕ) → IsHonest events → SentInOrder own peer side events
        → SentInOrder peer own (other side) events → events ≡ before ++ Sent side datagram ∷ after → HasPacketOf peer (datagram ∷ []) side Data
        → AreBothGreeted own peer side before }
{}

/// The order of a handshake is kept by events in which a side sends nothing, or sends what it may.
pub fn sent_in_order()
    ensures nothing { (own peer : ℕ) (side : Side) → SentInOrder own peer side [] }
    ensures quiet { (own peer : ℕ) (side : Side) (events : List Event) (e : Event) → ((d : List ℕ) → e ≡ Sent side d → ⊥) → SentInOrder own peer side events
        → SentInOrder own peer side (events ++ e ∷ []) }
    ensures sends { (own peer : ℕ) (side : Side) (events : List Event) (d : List ℕ) → GreetsInOrder own peer side (given_to side events) d → SentInOrder own peer side events
        → SentInOrder own peer side (events ++ Sent side d ∷ []) }
{}

/// The order of a handshake is kept by what an end does: it learns of the peer only what came, and hands out what it may.
pub fn orders()
    ensures fresh { (own peer : ℕ) (h : Progress) → h.is_greeted ≡ false → h.has_heard ≡ false → Orders own peer h [] }
    ensures act { (own peer : ℕ) (h : Progress) (t : List Act) (a : Act) → ((d : List ℕ) → a ≡ HandedOut d → ⊥) → Orders own peer h t → Orders own peer h (t ++ a ∷ []) }
    ensures hears { (own peer : ℕ) (h : Progress) (t : List Act) (d : List ℕ) → HasPacketOf own (d ∷ []) (other h.side) Data → Orders own peer h t
        → Orders own peer (record h { has_heard = true }) (t ++ HandedIn d ∷ []) }
    ensures greets { (own peer : ℕ) (h : Progress) (t : List Act) (d : List ℕ) → IsGreeted own (handed_in (t ++ HandedIn d ∷ [])) (other h.side) → Orders own peer h t
        → Orders own peer (record h { is_greeted = true }) (t ++ HandedIn d ∷ []) }
    ensures sends { (own peer : ℕ) (h : Progress) (t : List Act) (d : List ℕ) → (HasPacketOf peer (d ∷ []) h.side Data → h.is_greeted ≡ true)
        → (h.side ≡ Server → HasPacketOf peer (d ∷ []) h.side Data → h.has_heard ≡ true)
        → (h.side ≡ Server → (from : ℕ) (payload : List ℕ) → HasCrypto peer (d ∷ []) h.side from payload → h.is_greeted ≡ true) → Orders own peer h t
        → Orders own peer h (t ++ HandedOut d ∷ []) }
{}

/// The laws of an end that the part of a transcript that concerns 1-RTT packets keeps, the whole keeps; of streams both tell the
/// same; and over a link that gives each end only what the other handed out, what came to the one's part was handed out by the other's.
pub fn parts()
    ensures lawful { (side : Side) (own peer : ℕ) (u t : List Act) → IsPartOf u t → Lawful side own peer u → Lawful side own peer t }
    ensures written { (u t : List Act) → IsPartOf u t → (id : ℕ) → written u id ≡ written t id }
    ensures finished { (u t : List Act) → IsPartOf u t → (id : ℕ) → finished u id ≡ finished t id }
    ensures pieces { (u t : List Act) → IsPartOf u t → (id : ℕ) → pieces_read u id ≡ pieces_read t id }
    ensures ended { (u t : List Act) → IsPartOf u t → (id : ℕ) → ended u id ≡ ended t id }
    ensures split { (u t before after : List Act) (d : List ℕ) → IsPartOf u t → t ≡ before ++ HandedOut d ∷ after → IsInitialAlone d ⊎ IsSplit u before d }
    ensures linked { (uc tc up tp : List Act) → IsPartOf uc tc → IsPartOf up tp → AreShort up → CameFrom tc tp → CameFrom uc up }
    ensures end_handed_out { (u t : List Act) (x d : List ℕ) → IsPartOf u t → AreShort u → In d (handed_out t) → EndsWith x d → IsShort x → In x (handed_out u) }
{}

/// One value of a limit is announced. More datagrams announce no less, and what is permitted stays so; it is at most the announced value.
pub fn announced()
    ensures one { (k : ℕ) (xs : List (List ℕ)) (s : Side) (limit : Limit) (m n : ℕ) → IsAnnounced k xs s limit m → IsAnnounced k xs s limit n → m ≡ n }
    ensures more { (k : ℕ) (xs ys : List (List ℕ)) (s : Side) (limit : Limit) (m n : ℕ) → ((d : List ℕ) → In d xs → In d ys)
        → IsAnnounced k xs s limit m → IsAnnounced k ys s limit n → m ≤ n }
    ensures permitted { (k : ℕ) (xs : List (List ℕ)) (s : Side) (limit : Limit) (amount n : ℕ) → IsAnnounced k xs s limit n → IsPermitted k xs s limit amount → amount ≤ n }
    ensures permits { (k : ℕ) (xs : List (List ℕ)) (s : Side) (limit : Limit) (amount n : ℕ) → IsAnnounced k xs s limit n → amount ≤ n → IsPermitted k xs s limit amount }
    ensures permitted_more { (k : ℕ) (xs ys : List (List ℕ)) (s : Side) (limit : Limit) (amount : ℕ) → ((d : List ℕ) → In d xs → In d ys)
        → IsPermitted k xs s limit amount → IsPermitted k ys s limit amount }
{}

/// A hello in one datagram greets, and so do its halves in two, in any order. One half doesn't, nor do other frames, nor the hello of
/// the other side.
pub fn greeted_rows()
    ensures row { AreAnnouncedFirst 8 (carrying_crypto Client 0 limit_hello ∷ []) Client hello_limits }
    ensures halves { IsGreeted 8 (carrying_crypto Client 4 second_half ∷ carrying_crypto Client 0 first_half ∷ []) Client }
    ensures half { IsGreeted 8 (carrying_crypto Client 0 first_half ∷ []) Client → ⊥ }
    ensures nothing { (s : Side) → IsGreeted 8 [] s → ⊥ }
    ensures other_frames { IsGreeted 8 (two_packets ∷ []) Client → ⊥ }
    ensures other_side { IsGreeted 8 (carrying_crypto Client 0 limit_hello ∷ []) Server → ⊥ }
{}

/// A client begins with its hello. Two ends greet in order over an honest link, and then the client sends a 1-RTT packet. It sends no 1-RTT packet before it was greeted, and a server nothing of its hello.
pub fn order_rows()
    ensures begins { HasGreetedInOrder 8 8 Client (HandedOut (carrying_crypto Client 0 limit_hello) ∷ []) }
    ensures handshake { IsHonest greeting_events × SentInOrder 8 8 Client greeting_events × SentInOrder 8 8 Server greeting_events }
    ensures early_packet { HasGreetedInOrder 8 8 Client (HandedOut forged ∷ []) → ⊥ }
    ensures early_answer { HasGreetedInOrder 8 8 Server (HandedOut (carrying_crypto Server 0 first_half) ∷ []) → ⊥ }
{}

/// The part of a datagram with an Initial and a 1-RTT packet is its 1-RTT packet, or nothing, and not all of it; an Initial packet that
/// is handed out isn't of the part, and a 1-RTT packet is.
pub fn part_rows()
    ensures tail { IsPartOf (HandedIn forged ∷ []) (HandedIn two_packets ∷ []) }
    ensures unheard { IsPartOf [] (HandedIn two_packets ∷ []) }
    ensures all_of_it { IsPartOf (HandedIn two_packets ∷ []) (HandedIn two_packets ∷ []) → ⊥ }
    ensures initial { IsPartOf [] (HandedOut initial_part ∷ []) }
    ensures left_out { IsPartOf [] (HandedOut forged ∷ []) → ⊥ }
{}

/// A limit is announced by a hello, and by a MAX frame: its value, and no other; of that limit, and of that sender. A stream's first
/// limit is by its initiator and direction.
pub fn announced_rows()
    ensures hello { Announces 8 (carrying_crypto Client 0 limit_hello ∷ []) Client Connection 1000 }
    ensures frame { IsAnnounced 8 (carrying_max_data ∷ []) Client Connection 5000 }
    ensures both { Announces 8 (carrying_max_data ∷ carrying_crypto Client 0 limit_hello ∷ []) Client Connection 1000
        × Announces 8 (carrying_max_data ∷ carrying_crypto Client 0 limit_hello ∷ []) Client Connection 5000 }
    ensures near_frame { (n : ℕ) → IsAnnounced 8 (carrying_max_data ∷ []) Client Connection n → n ≡ 5000 }
    ensures other_limit { (id n : ℕ) → Announces 8 (carrying_max_data ∷ []) Client (Stream id) n → ⊥ }
    ensures other_sender { (limit : Limit) (n : ℕ) → Announces 8 (carrying_max_data ∷ []) Server limit n → ⊥ }
    ensures streams { (l : FirstLimits) → (first_limit Client l (Stream 4) ≡ l.bidi_local) × (first_limit Client l (Stream 5) ≡ l.bidi_remote)
        × (first_limit Client l (Stream 7) ≡ l.uni) × (first_limit Server l (Stream 4) ≡ l.bidi_remote) × (first_limit Server l (Stream 5) ≡ l.bidi_local) × (first_limit Server l (Stream 6) ≡ l.uni) }
{}

/// Of a hello's limit and a MAX frame's the greatest is announced, whichever has it: the frame raises the hello's limit, and can't lower
/// it.
pub fn greatest_rows()
    ensures raised { IsAnnounced 8 (hello_and carrying_max_data) Client Connection 5000 }
    ensures near_raised { IsAnnounced 8 (hello_and carrying_max_data) Client Connection 1000 → ⊥ }
    ensures kept { IsAnnounced 8 (hello_and carrying_low_max_data) Client Connection 1000 }
    ensures near_kept { IsAnnounced 8 (hello_and carrying_low_max_data) Client Connection 50 → ⊥ }
    ensures lower { Announces 8 (hello_and carrying_low_max_data) Client Connection 50 }
    ensures all_values { (n : ℕ) → Announces 8 (hello_and carrying_low_max_data) Client Connection n → (n ≡ 1000) ⊎ (n ≡ 50) }
    ensures permitted { (amount : ℕ) → IsPermitted 8 (hello_and carrying_low_max_data) Client Connection amount → amount ≤ 1000 }
{}
