//! Laws of the definitions. Each is the contract of a function that does nothing.
ghost use Rattle.std.specs.Prelude.{◌≡◌, ◌↔◌, ◌≤◌, Option, Some, Result, MatchResult};
ghost use Rattle.sqlite.specs.Effect.{Database};
ghost use Rattle.pid_moderation.specs.CheckTables.{most_revision};
ghost use Rattle.pid_moderation.specs.History.{History};
ghost use Rattle.pid_moderation.specs.Sound.{IsSound};
ghost use Rattle.pid_moderation.specs.Views.{revision_of, views_of};
ghost use Rattle.pid_tables.specs.Rows.Faults.{IsMemoryOrStore};
ghost use Rattle.pid_tables.specs.declared.rows.fault.TableFault.{TableFault};
ghost use Rattle.pid_tables.specs.declared.rows.schema_version.Version.{Version};
ghost use Rattle.pid_tables.specs.Rows.Schema.{no_schema, schema_of};
ghost use Rattle.pid_tables.specs.Rows.Shows.{ShowsIn};
ghost use Rattle.pid_tables.specs.Check.Checking.{Explains, FindsVersion, IsRegistry};
ghost use Rattle.pid_tables.specs.Check.Shapes.{HasNoTable, HasEachTable, HasTables, IsMadeFirst};

/// Every database that shows a sound history whose revision is within its limit, in either schema,
/// has the tables of the schema and meets all conditions on their rows.
pub fn sound_histories_are_registries()
    ensures { (h : History) → IsSound h → revision_of h ≤ most_revision
        → (version : Version) (db : Database) → ShowsIn version db (views_of h)
        → IsRegistry version db }
{
    pid_moderation::laws::items_are_sorted(); // proof only
    pid_moderation::laws::sinces_are_last_changes(); // proof only
}

/// What is answered of the rows that the queries of the tables answer is so of those that storage
/// has, if the tables of a schema were made first, whatever else comes after them: the schema is
/// found exactly when storage has a registry in it, and a fault is none of that registry.
pub fn judgements_hold_of_storage()
    ensures { (db : Database) (result : Result (Option Version) TableFault)
        → MatchResult result (FindsVersion db) (Explains db)
        → (version : Version) → IsMadeFirst version db.schema
        → MatchResult result (λ found. (found ≡ Some version) ↔ IsRegistry version db)
        (λ fault. IsRegistry version db → IsMemoryOrStore fault) }
{}

/// A database without any table has none of the seven. Those of each schema have all tables of the
/// schema, which were made first.
pub fn schemas_have_tables()
    ensures none { HasNoTable no_schema }
    ensures each { (version : Version) → HasEachTable (schema_of version) }
    ensures tables { (version : Version) → HasTables version (schema_of version) }
    ensures first { (version : Version) → IsMadeFirst version (schema_of version) }
{}
