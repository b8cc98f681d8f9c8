//! Worked examples: what the machine does with some scripts, to the last byte of their reports, and what its parts come to.

ghost use Rattle.argo_model.specs.Examples.Laws.{NoticeIsServed, PingAndPongHasCauses, PingAndPongIsPossible, PingAndPongIsTaken, PingInShort};
ghost use Rattle.argo_model.specs.Examples.Ends.{DestroyedBetweenGatherAndDelivery, ResetAndCreate};
ghost use Rattle.argo_model.specs.Examples.Iovs.{GatheredIovs, PiecesOfRanges, Verdicts};
ghost use Rattle.argo_model.specs.Examples.Memory.{StoreAcrossPages};
ghost use Rattle.argo_model.specs.Examples.Messages.{SecondBodyGetsANotice};
ghost use Rattle.argo_model.specs.Examples.OwnSlots.{SendOutOfOwnSlots};
ghost use Rattle.argo_model.specs.Examples.Puts.{GuestPuts, ProperMoves, RxWords, Starts, StartsInMemory, Touches};
ghost use Rattle.argo_model.specs.Examples.Talk.{PingAndPong, WrappedBody};

/// A ring of 48 slot bytes takes one body of 16. The second body finds no room: -11, and the sender is noted.
pub fn second_body_gets_a_notice()
    ensures { SecondBodyGetsANotice }
{}

/// A store and a load over a page's end take two steps each. A store past the last page writes its first piece, and is a fault.
pub fn store_across_pages()
    ensures { StoreAcrossPages }
{}

/// A body is taken, and the next one is written round the ring's end over the old bytes.
pub fn wrapped_body()
    ensures { WrappedBody }
{}

/// Two domains with a ring for each other: one sends, the other waits for its flag, takes the message and answers.
pub fn ping_and_pong()
    ensures { PingAndPong }
{}

/// A domain sends to itself out of its own slots, and lets notify write over its ring's words: the ring is dirty, and goes on.
pub fn send_out_of_own_slots()
    ensures { SendOutOfOwnSlots }
{}

/// A sender is destroyed after it has gathered a body and before the delivery: its send and its next line are gone.
pub fn destroyed_between_gather_and_delivery()
    ensures { DestroyedBetweenGatherAndDelivery }
{}

/// A sender is reset, destroyed and created anew, and sections of its two generations go on.
pub fn reset_and_create()
    ensures { ResetAndCreate }
{}

/// Where the hypervisor goes on in a ring that starts, by its two words, and when the ring is clean.
pub fn starts()
    ensures { Starts }
{}

/// The same in a memory, and which bytes the start writes.
pub fn starts_in_memory()
    ensures { StartsInMemory }
{}

/// What a guest's rx word counts as, how many bytes are free by it, and the largest bodies that fit.
pub fn rx_words()
    ensures { RxWords }
{}

/// What a guest's puts into a clean and empty ring leave of it: clean, or dirty.
pub fn guest_puts()
    ensures { GuestPuts }
{}

/// Which bytes of a ring a put may write without making it dirty.
pub fn touches()
    ensures { Touches }
{}

/// Which puts of the rx word take messages, and how many.
pub fn proper_moves()
    ensures { ProperMoves }
{}

/// How a range of guest memory is cut at page ends.
pub fn pieces_of_ranges()
    ensures { PiecesOfRanges }
{}

/// The verdict on a send's buffers.
pub fn verdicts()
    ensures { Verdicts }
{}

/// Buffers as they are read from guest memory, and the pieces in which they are gathered.
pub fn gathered_iovs()
    ensures { GatheredIovs }
{}

/// In ping and pong each ring accepted one message, and its owner took it.
pub fn ping_and_pong_is_taken()
    ensures { PingAndPongIsTaken }
{}

/// The replies of the two sends of ping and pong, by what their steps looked at.
pub fn ping_and_pong_has_causes()
    ensures { PingAndPongHasCauses }
{}

/// Each outcome of ping and pong is possible for its script.
pub fn ping_and_pong_is_possible()
    ensures { PingAndPongIsPossible }
{}

/// The outcomes of a send as two numbers each.
pub fn ping_in_short()
    ensures { PingInShort }
{}

/// A sender is noted and served: what sets and clears the flags, and how the notice begins and ends.
pub fn notice_is_served()
    ensures { NoticeIsServed }
{}
