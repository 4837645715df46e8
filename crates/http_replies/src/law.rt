ghost use Rattle.std.specs.Prelude.{◌≡◌};
ghost use Rattle.desk_http.specs.declared.request.Refusal.TheVariants.{NoSuch};
ghost use Rattle.desk_http.specs.Spoken.{memory_text, status_of, text_of};
ghost use Rattle.server_text.specs.Bodies.{body_of};
ghost use Rattle.server_text.specs.declared.reply.Reply.TheVariants as reply;
ghost use Rattle.http_replies.specs.Statuses.{reply_status};

/// What a conversation says itself where there is no route, and at want of memory, is what a server replies.
pub fn refusals_are_replies()
    ensures no_such { (text_of NoSuch ≡ body_of reply.NoSuch) × (status_of NoSuch ≡ reply_status reply.NoSuch) }
    ensures memory { (memory_text ≡ body_of reply.Memory) × (503 ≡ reply_status reply.Memory) }
{}
