// What holds of every call of a host. The body of a law calls the laws that its proof stands on.
ghost use Rattle.std.specs.Prelude.{◌≡◌, ℕ, List, None, codes};
ghost use Rattle.sha2.specs.Sha256.{sha256};
ghost use Rattle.desk_base.specs.Counts.{Rose};
ghost use Rattle.route_rules.specs.declared.method.Asking.{Asking};
ghost use Rattle.route_rules.specs.declared.method.Asking.TheVariants.{Get};
ghost use Rattle.route_rules.specs.declared.route.Routes.TheVariants as routes;
ghost use Rattle.route_rules.specs.Routes.{FindsRoute, IsDigestValue, file_path, method_word};
ghost use Rattle.desk_http.specs.declared.host.Called.TheVariants.{Answer};
ghost use Rattle.desk_hosts.specs.ServerCalls.{ServerCalls, ServerTells};
ghost use Rattle.desk_hosts.specs.RelayCalls.{RelayCalls, RelayTells};

use route_rules::one_route;

/// A server answers 500 only where a call of its keeper failed.
pub fn a_keeper_fault_was_counted()
    ensures { (old new : ServerTells) (asking : Asking) (path body text : List ℕ) → ServerCalls old asking path body (Answer 500 text) new
        → Rose old.keeper.faults new.keeper.faults }
{}

/// A method and a path without a route are answered 404, and nothing is changed.
pub fn what_has_no_route_is_no_such()
    ensures server { (old new : ServerTells) (asking : Asking) (path body text : List ℕ) (status : ℕ)
        → FindsRoute routes.Server (method_word asking) path None → ServerCalls old asking path body (Answer status text) new
        → (status ≡ 404) × (text ≡ codes "no such\n") × (new ≡ old) }
    ensures relay { (old new : RelayTells) (asking : Asking) (path body text : List ℕ) (status : ℕ)
        → FindsRoute routes.Relay (method_word asking) path None → RelayCalls old asking path body (Answer status text) new
        → (status ≡ 404) × (text ≡ codes "no such\n") × (new ≡ old) }
{
    one_route();
}

/// The bytes that a relay answers for a file have the digest that was asked for.
pub fn a_file_has_its_digest()
    ensures { (old new : RelayTells) (digest body text : List ℕ) → IsDigestValue digest
        → RelayCalls old Get (file_path digest) body (Answer 200 text) new → sha256 text ≡ digest }
{
    one_route();
}
