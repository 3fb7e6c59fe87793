ghost use Rattle.std.specs.Prelude.{◌≡◌, ◌↔◌, ℕ, List, Some};
ghost use Rattle.desk_routes.specs.declared.target.Page.{Page};
ghost use Rattle.desk_routes.specs.Routes.{route_of};
ghost use Rattle.desk_routes.specs.Targets.{IsTargetOf};

/// The targets that have a route are those of the pages: `/cases`, `/decisions`, `/reviews`, `/rulings`, and `/cases/`
/// with a reference of at least one byte and without `/`, alone or with `/report` or `/appeal` behind it. Each names
/// one page and one reference.
pub fn routes_are_the_targets_of_pages()
    ensures { (target reference : List ℕ) (page : Page)
        → (route_of target ≡ Some (page, reference)) ↔ IsTargetOf target page reference }
{}
