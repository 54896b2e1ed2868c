//! Laws of groups. They do nothing: each is called for its `ensures` clauses.
ghost use Rattle.std.specs.Prelude.{◌≡◌, ℕ, List, [], length};
ghost use Rattle.mysql_bind_core.specs.Groups.{AreGroupsAppended, IsGroup};
ghost use Rattle.mysql_bind_core.specs.Tables.{Fields};
ghost use Rattle.mysql_bind_core.specs.TakenQuery.{RequestedQuery};
ghost use Rattle.mysql_bind_core.specs.declared.group_form.GroupForm as group;

/// The groups of a text are the only ones. A text begins with one group at most, which has one text
/// (`one`). So a script gets the same bytes for the same number of groups (`same`), and for all
/// records of a table (`all`).
pub fn groups_are_unique()
    ensures one { (query : RequestedQuery) (form : group.GroupForm) (text : List ℕ)
        (records others : List Fields) (rest behind written bytes : List ℕ) →
        IsGroup query form text records rest written →
        IsGroup query form text others behind bytes →
        (records ≡ others) × (rest ≡ behind) × (written ≡ bytes) }
    ensures same { (query : RequestedQuery) (form : group.GroupForm) (text : List ℕ)
        (groups others : List (List Fields)) (rest behind before script bytes : List ℕ) →
        AreGroupsAppended query form text groups rest before script →
        AreGroupsAppended query form text others behind before bytes →
        length groups ≡ length others →
        (groups ≡ others) × (rest ≡ behind) × (script ≡ bytes) }
    ensures all { (query : RequestedQuery) (form : group.GroupForm) (text : List ℕ)
        (groups others : List (List Fields)) (before script bytes : List ℕ) →
        AreGroupsAppended query form text groups [] before script →
        AreGroupsAppended query form text others [] before bytes →
        (groups ≡ others) × (script ≡ bytes) }
{}
