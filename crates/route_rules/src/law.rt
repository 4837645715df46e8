ghost use Rattle.std.specs.Prelude.{◌≡◌, List, ℕ, Option};
ghost use Rattle.route_rules.specs.declared.route.Route.{Route};
ghost use Rattle.route_rules.specs.declared.route.Routes.{Routes};
ghost use Rattle.route_rules.specs.Routes.{FindsRoute};

/// A method and a path have one route at most.
pub fn one_route()
    ensures { (routes : Routes) (method path : List ℕ) (found other : Option Route)
        → FindsRoute routes method path found → FindsRoute routes method path other → found ≡ other }
{}
