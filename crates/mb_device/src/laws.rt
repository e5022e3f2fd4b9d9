//! Theorems: a simulated device writes exactly the responses to the frames that it reads on a
//! connection. Without injected faults, the responses are unchanged.
ghost use Rattle.std.specs.Prelude.{◌≡◌, ◌-◌, ◌^◌, ℕ, List, [], false};
ghost use Rattle.std.specs.List.{flat_map};
ghost use Rattle.mb_wire.specs.Reader.{Fields};
ghost use Rattle.mb_device.specs.Exchanges.{AllAreOne, ServingExchanges, TurnExchanges, TwoAreOne};
ghost use Rattle.mb_device.specs.Tricks.{Playing, carried_out, course_after, frame_of, is_cut, sent};
ghost use Rattle.mb_device.specs.declared.trick.Trick.{Trick};

/// Theorem: each successful call of `turn` or `serve` writes exactly the responses to the frames
/// that the device read. The bytes read and written form an exchange. Consecutive exchanges form
/// one exchange, even if the connection gained or lost bytes in between.
pub fn turns_compose()
    ensures turn { TurnExchanges }
    ensures serving { ServingExchanges }
    ensures two { TwoAreOne }
    ensures all { AllAreOne }
{}

/// Theorem: a simulated device without injected faults executes every frame, sends the responses
/// unchanged and in order, and never closes the connection. From frame 2^64 - 1 on, no fault is
/// injected.
pub fn no_trick_is_true()
    ensures sent { (number : ℕ) (answers : List Fields) →
        sent (Playing [] number []) answers ≡ flat_map frame_of answers }
    ensures carried { (number : ℕ) (frames : List (List ℕ)) →
        carried_out (Playing [] number []) frames ≡ frames }
    ensures going { (number : ℕ) (answers : List Fields) →
        is_cut (course_after (Playing [] number []) answers) ≡ false }
    ensures past { (tricks : List (ℕ × Trick)) (answers : List Fields) →
        sent (Playing tricks (2 ^ 64 - 1) []) answers ≡ flat_map frame_of answers }
    ensures past_carried { (tricks : List (ℕ × Trick)) (frames : List (List ℕ)) →
        carried_out (Playing tricks (2 ^ 64 - 1) []) frames ≡ frames }
{}
