// What each word does.
ghost use Rattle.std.specs.Prelude.{OnOk};
ghost use Rattle.office_text.specs.Orders.{IsOrder};
ghost use Rattle.office_rules.specs.Plays.{Obeys};
ghost use Rattle.office_play.specs.Kept.{HasAccepted};
ghost use Rattle.office_play.specs.Links.{AddsNames, IsGoodOffice, KnowsNames, added_computers, added_relays};
ghost use Rattle.office_play.specs.Played.{Plays};
ghost use Rattle.office_play.specs.States.{kept_of};

use crate::office::Office;
use desk_base::Bytes;
use office_text::Order;
use server_core::Request;
use std::alloc::AllocError;

impl Office {
    /// Obeys an order, and appends what is printed of it. The error is want of memory.
    pub(crate) fn obey(&mut self, order: Order, out: &mut Bytes) -> Result<(), AllocError>
        requires good { IsGoodOffice (kept_of self.old) }
        requires accepted { HasAccepted (kept_of self.old).rows }
        requires order { IsOrder order }
        requires names { KnowsNames (kept_of self.old) order }
        ensures plays { OnOk result (Plays (Obeys order) (kept_of self.old) out.old (kept_of self.new) out.new) }
        ensures names { OnOk result (AddsNames (added_relays order) (added_computers order) (kept_of self.old) (kept_of self.new)) }
    {
        match order {
            Order::Publish(text) => self.ask("publish", &Request::Publish(text), out),
            Order::Act(text) => self.ask("act", &Request::Act(text), out),
            Order::Stop(id) => self.ask("stop", &Request::Stop(id), out),
            Order::File(bytes) => self.ask("file", &Request::File(bytes), out),
            Order::Relay(name) => self.add_relay(name, out),
            Order::Computer { name, relay, world } => self.add_computer(name, relay, world, out),
            Order::Gather(relay) => self.gather(&relay, out),
            Order::Turn { name, moment } => self.turn(&name, moment, out),
            Order::Restart(name) => self.restart(&name, out),
            Order::Send { name, seq } => self.send(&name, seq, out),
            Order::Push(relay) => self.push(&relay, out),
            Order::Deliver(number) => self.deliver(number, out),
            Order::Report(name) => self.report(&name, out),
            Order::Forward(relay) => self.forward(&relay, out),
            Order::Forget(relay) => self.forget(&relay, out),
            Order::Analysis(analysis) => self.keep_analysis(&analysis, out),
            Order::Group(group) => self.keep_group(&group, out),
            Order::Measure { name, moment } => self.measure(&name, moment, out),
            Order::Members(group) => self.list_members(&group, out),
            Order::Target { group, action } => self.target(&group, &action, out),
        }
    }
}
