//! Worked answers of the definitions of `specs/`. Each function has an empty body: its clauses are what it is for.
ghost use Rattle.std.specs.Prelude.{◌≡◌, pos, true, [], ◌∷◌, ◌++◌, map, codes, Some, None};
ghost use Rattle.col_core.specs.declared.leaf.Leaf.TheVariants.{Null};
ghost use Rattle.col_core.specs.declared.data_type.DataType.TheVariants.{Int8, Int64, Boolean, String, Date, Decimal};
ghost use Rattle.join_model.specs.Joined.{rows_of, joined_rows};
ghost use Rattle.join_model.specs.Answers.{answer_rows, answer_groups};
ghost use Rattle.join_model.specs.Refusals.{checked_refusal, refusal_of};
ghost use Rattle.join_query.specs.declared.error.QueryError.TheVariants.{NoKeyColumns, UnknownColumn, SchemaMismatch, UnsupportedReduction, UnsupportedFilter, BadPlan, TooLarge};
ghost use Rattle.join_query.specs.declared.query.FilterOp.TheVariants.{Eq};
ghost use Rattle.join_query.specs.declared.query.Operand.TheVariants.{Column, Literal};
ghost use Rattle.join_query.specs.declared.query.IntLiteral.TheVariants.{I64};
ghost use Rattle.join_model.specs.Examples.{inner_query, outer_query, null_key_query, null_joins_query, filter_query, report_query, customers, orders, customer_frames, order_frames, fewer_orders, keyed_build, keyed_probe, region_frames, sales_frames, field, table, two_numbers, customer, build_column, probe_column, reduction};
ghost use Rattle.join_query.specs.declared.limits.TheConstants.{DEFAULT_PLAN};
ghost use Rattle.reduce_model.specs.Examples.{number, minus, text};
ghost use Rattle.reduce_model.specs.declared.kind.ReductionKind.TheVariants.{Sum, Min};

/// An inner join: each probe row beside each build row of its key, in build order; groups by first appearance.
pub fn inner_join_example()
    ensures schema { (answer_rows inner_query customer_frames order_frames).schema ≡
        field (codes "probe.cust") Int64 ∷ field (codes "probe.amt") Int64
        ∷ field (codes "build.id") Int64 ∷ field (codes "build.name") String ∷ [] }
    ensures rows { (answer_rows inner_query customer_frames order_frames).rows ≡
        (two_numbers 1 5 ++ customer 1 (codes "Ann"))
        ∷ (two_numbers 1 5 ++ customer 1 (codes "Cy"))
        ∷ (two_numbers 2 1 ++ customer 2 (codes "Bo")) ∷ [] }
    ensures group_schema { (answer_groups inner_query customer_frames order_frames).schema ≡
        field (codes "build.name") String ∷ field (codes "sum(probe.amt)") Int64 ∷ [] }
    ensures groups { (answer_groups inner_query customer_frames order_frames).rows ≡
        (text (codes "Ann") ∷ number 5 ∷ []) ∷ (text (codes "Cy") ∷ number 5 ∷ [])
        ∷ (text (codes "Bo") ∷ number 1 ∷ []) ∷ [] }
    ensures no_frames { (answer_rows inner_query [] []).rows ≡ [] }
    ensures no_groups { (answer_groups inner_query [] []).rows ≡ [] }
    ensures accepted { refusal_of inner_query customer_frames order_frames ≡ None }
{}

/// Both keep flags: a probe row without a partner in its place, and the unmatched build rows last, each beside nulls.
pub fn outer_join_example()
    ensures rows { (answer_rows outer_query customer_frames fewer_orders).rows ≡
        (two_numbers 1 5 ++ customer 1 (codes "Ann"))
        ∷ (two_numbers 1 5 ++ customer 1 (codes "Cy"))
        ∷ (two_numbers 3 7 ++ Null ∷ Null ∷ [])
        ∷ (Null ∷ Null ∷ customer 2 (codes "Bo")) ∷ [] }
    ensures groups { (answer_groups outer_query customer_frames fewer_orders).rows ≡
        (text (codes "Ann") ∷ number 5 ∷ []) ∷ (text (codes "Cy") ∷ number 5 ∷ [])
        ∷ (Null ∷ number 7 ∷ []) ∷ (text (codes "Bo") ∷ number 0 ∷ []) ∷ [] }
{}

/// A null key joins nothing, unless nulls are equal.
pub fn null_key_example()
    ensures rows { (answer_rows null_key_query
        (table keyed_build (two_numbers 1 10 ∷ two_numbers 2 20 ∷ []) ∷ [])
        (table keyed_probe (two_numbers 1 1 ∷ (Null ∷ number 2 ∷ []) ∷ two_numbers 2 3 ∷ [])
        ∷ [])).rows ≡
        (two_numbers 1 1 ++ two_numbers 1 10) ∷ (Null ∷ number 2 ∷ Null ∷ Null ∷ [])
        ∷ (two_numbers 2 3 ++ two_numbers 2 20) ∷ [] }
    ensures groups { (answer_groups null_key_query
        (table keyed_build (two_numbers 1 10 ∷ two_numbers 2 20 ∷ []) ∷ [])
        (table keyed_probe (two_numbers 1 1 ∷ (Null ∷ number 2 ∷ []) ∷ two_numbers 2 3 ∷ [])
        ∷ [])).rows ≡
        two_numbers 1 10 ∷ (Null ∷ number 0 ∷ []) ∷ two_numbers 2 20 ∷ [] }
    ensures equal_rows { (answer_rows null_joins_query
        (table keyed_build (two_numbers 1 10 ∷ two_numbers 2 20 ∷ (Null ∷ number 30 ∷ []) ∷ [])
        ∷ [])
        (table keyed_probe (two_numbers 1 1 ∷ (Null ∷ number 2 ∷ []) ∷ two_numbers 2 3 ∷ [])
        ∷ [])).rows ≡
        (two_numbers 1 1 ++ two_numbers 1 10) ∷ (Null ∷ number 2 ∷ Null ∷ number 30 ∷ [])
        ∷ (two_numbers 2 3 ++ two_numbers 2 20) ∷ [] }
    ensures equal_groups { (answer_groups null_joins_query
        (table keyed_build (two_numbers 1 10 ∷ two_numbers 2 20 ∷ (Null ∷ number 30 ∷ []) ∷ [])
        ∷ [])
        (table keyed_probe (two_numbers 1 1 ∷ (Null ∷ number 2 ∷ []) ∷ two_numbers 2 3 ∷ [])
        ∷ [])).rows ≡
        two_numbers 1 10 ∷ (Null ∷ number 30 ∷ []) ∷ two_numbers 2 20 ∷ [] }
{}

/// A filter drops rows, a null operand failing also 'not equal', and a build row whose rows it drops is not unmatched.
pub fn filter_example()
    ensures joined { joined_rows filter_query ((number 1 ∷ []) ∷ (number 2 ∷ []) ∷ [])
        (two_numbers 1 5 ∷ (number 2 ∷ Null ∷ []) ∷ two_numbers 2 6 ∷ []) ≡
        (two_numbers 1 5 ++ number 1 ∷ []) ∷ (number 2 ∷ Null ∷ number 2 ∷ [])
        ∷ (two_numbers 2 6 ++ number 2 ∷ []) ∷ [] }
    ensures rows { (answer_rows filter_query
        (table (field (codes "id") Int64 ∷ []) ((number 1 ∷ []) ∷ (number 2 ∷ []) ∷ []) ∷ [])
        (table (field (codes "id") Int64 ∷ field (codes "amt") Int64 ∷ [])
        (two_numbers 1 5 ∷ (number 2 ∷ Null ∷ []) ∷ two_numbers 2 6 ∷ []) ∷ [])).rows ≡
        (two_numbers 2 6 ++ number 2 ∷ []) ∷ [] }
    ensures groups { (answer_groups filter_query
        (table (field (codes "id") Int64 ∷ []) ((number 1 ∷ []) ∷ (number 2 ∷ []) ∷ []) ∷ [])
        (table (field (codes "id") Int64 ∷ field (codes "amt") Int64 ∷ [])
        (two_numbers 1 5 ∷ (number 2 ∷ Null ∷ []) ∷ two_numbers 2 6 ∷ []) ∷ [])).rows ≡
        two_numbers 2 6 ∷ [] }
{}

/// An ordinary report: each kind of reduction, over dates and decimals, with a group of nulls.
pub fn report_example()
    ensures groups { (answer_groups report_query region_frames sales_frames).rows ≡
        (text (codes "north") ∷ number 1000 ∷ number 19000 ∷ number 19002 ∷ number 19000 ∷ minus 250
        ∷ [])
        ∷ (text (codes "south") ∷ number 1000 ∷ number 18999 ∷ number 19001 ∷ number 19001
        ∷ number 1 ∷ [])
        ∷ (Null ∷ number 500 ∷ number 19003 ∷ number 19003 ∷ number 19003 ∷ number 500 ∷ []) ∷ [] }
    ensures names { map
        (λ f. f.name) (answer_groups report_query region_frames sales_frames).schema ≡
        codes "build.region" ∷ codes "sum(probe.total)" ∷ codes "min(probe.day)"
        ∷ codes "max(probe.day)" ∷ codes "first(probe.day)" ∷ codes "last(probe.total)" ∷ [] }
{}

/// The first refusal, with its kept number, where several causes stand together.
pub fn refusal_examples()
    ensures no_keys { refusal_of
        (record inner_query {
          group_keys = [];
          reductions = reduction Sum (probe_column (codes "zzz")) ∷ [];
        }) customer_frames order_frames ≡ Some NoKeyColumns }
    ensures unknown_key { refusal_of
        (record inner_query { build_keys = codes "nope" ∷ [] }) customer_frames order_frames
        ≡ Some (UnknownColumn 0) }
    ensures unknown_reduction { refusal_of
        (record inner_query {
          reductions = reduction Sum (probe_column (codes "zzz")) ∷ [];
        }) customer_frames order_frames ≡ Some (UnknownColumn 3) }
    ensures after_a_literal { refusal_of
        (record inner_query {
          filter = Some
              (record {
                op = Eq;
                left = probe_column (codes "amt");
                right = Literal (I64 (pos 5));
              });
          group_keys = probe_column (codes "zzz") ∷ [];
        }) customer_frames order_frames ≡ Some (UnknownColumn 3) }
    ensures other_type { refusal_of
        (record inner_query { build_keys = codes "name" ∷ [] }) customer_frames order_frames
        ≡ Some SchemaMismatch }
    ensures other_frame { refusal_of inner_query customer_frames customer_frames
        ≡ Some SchemaMismatch }
    ensures repeated_name { refusal_of
        (record inner_query { probe_schema = orders ++ orders }) [] [] ≡ Some SchemaMismatch }
    ensures no_sum { refusal_of
        (record inner_query {
          probe_schema = field (codes "cust") Int64 ∷ field (codes "amt") Boolean ∷ [];
        }) [] [] ≡ Some (UnsupportedReduction 0) }
    ensures filter_of_texts { refusal_of
        (record inner_query {
          filter = Some
              (record {
                op = Eq;
                left = build_column (codes "name");
                right = Column (build_column (codes "name"));
              });
        }) customer_frames order_frames
        ≡ Some UnsupportedFilter }
    ensures bad_plan { refusal_of
        (record inner_query { plan = record DEFAULT_PLAN { partitions = 0 } })
        customer_frames order_frames ≡ Some BadPlan }
    ensures even_factor { refusal_of
        (record inner_query { plan = record DEFAULT_PLAN { pseed = 2 } })
        customer_frames order_frames ≡ Some BadPlan }
    ensures too_large { refusal_of
        (record inner_query { plan = record DEFAULT_PLAN { rows = 2 } })
        customer_frames order_frames ≡ Some TooLarge }
    ensures too_large_unchecked { checked_refusal
        (record inner_query { plan = record DEFAULT_PLAN { rows = 2 } })
        customer_frames order_frames ≡ None }
    ensures just_fits { refusal_of
        (record inner_query { plan = record DEFAULT_PLAN { rows = 3 } })
        customer_frames order_frames ≡ None }
{}

/// Any reductions, none included, and any group keys are answered.
pub fn accepted_examples()
    ensures least { refusal_of
        (record inner_query {
          reductions = reduction Min (probe_column (codes "amt")) ∷ [];
        }) customer_frames order_frames ≡ None }
    ensures other_sum { refusal_of
        (record inner_query {
          probe_schema = field (codes "cust") Int64 ∷ field (codes "amt") Int8 ∷ [];
        }) [] [] ≡ None }
    ensures no_reduction { refusal_of
        (record inner_query { reductions = [] }) customer_frames order_frames ≡ None }
    ensures other_group { refusal_of
        (record inner_query {
          probe_schema = orders ++ field (codes "day") Date ∷ [];
          group_keys = probe_column (codes "day") ∷ [];
        }) [] [] ≡ None }
    ensures two_groups { refusal_of
        (record inner_query {
          group_keys = probe_column (codes "cust") ∷ probe_column (codes "amt") ∷ [];
        }) customer_frames order_frames
        ≡ None }
    ensures other_column { refusal_of
        (record inner_query { probe_schema = orders ++ field (codes "day") Date ∷ [] }) [] []
        ≡ None }
    ensures kept_rows { refusal_of outer_query customer_frames order_frames ≡ None }
    ensures two_keys { refusal_of
        (record inner_query {
          build_keys = codes "id" ∷ codes "id" ∷ [];
          probe_keys = codes "cust" ∷ codes "amt" ∷ [];
        }) customer_frames order_frames ≡ None }
{}
